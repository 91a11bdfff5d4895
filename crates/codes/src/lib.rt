// The codes: severity and short name of each, after the Rust's `severity` and `short_name`.
#![tactic(auto)]

ghost use Rattle.std.specs.Prelude.{◌≡◌};
ghost use Rattle.rules.specs.Codes.{disabled, short_name};
ghost use Rattle.rules.specs.code.Decoded.{code_number};
ghost use Rattle.codes.specs.Named.{severity_of};

use rules::Code;

// With the numbers that C sees.
#[derive(Clone, Copy, Debug, PartialEq, Eq)]
pub enum EvalSeverity {
    Disabled = 0,
    Warning = 1,
}

// Any number but those six is a warning's, as 01 has it.
pub fn severity(code: u32) -> EvalSeverity
    ensures { result ≡ severity_of (disabled code) }
{
    match Code::try_from(code) {
        Ok(
            Code::UnusedLoad
            | Code::UnusedAssign
            | Code::UnusedArgument
            | Code::UsingUndefined
            | Code::RedundantReturn
            | Code::RedundantContinue,
        ) => EvalSeverity::Disabled,
        _ => EvalSeverity::Warning,
    }
}

fn name_of(code: Code) -> &'static [u8]
    ensures { result.now ≡ short_name (code_number code) }
{
    match code {
        Code::UnusedLoad => b"unused-load",
        Code::UnusedAssign => b"unused-assign",
        Code::UnusedArgument => b"unused-argument",
        Code::UsingUnassigned => b"using-unassigned",
        Code::UsingUndefined => b"using-undefined",
        Code::UsingMaybeUndefined => b"using-maybe-undefined",
        Code::MissingReturnExpression => b"missing-return-expression",
        Code::MissingReturn => b"missing-return",
        Code::Unreachable => b"unreachable",
        Code::RedundantReturn => b"redundant-return",
        Code::RedundantContinue => b"redundant-continue",
        Code::MisplacedLoad => b"misplaced-load",
        Code::NoEffect => b"no-effect",
        Code::IncompatibleTypeCheck => b"incompatible-type-check",
        Code::DuplicateTopLevelAssign => b"duplicate-top-level-assign",
        Code::DuplicateKey => b"duplicate-key",
        Code::IdentAsStatement => b"ident-as-statement",
    }
}

// What is no code has no name.
pub fn short_name(code: u32) -> &'static [u8]
    ensures { result.now ≡ short_name code }
{
    match Code::try_from(code) {
        Ok(known) => name_of(known),
        Err(_) => b"",
    }
}
