// The words of a log's messages: specs/Words is their table.
ghost use Rattle.std.specs.Prelude.{◌≡◌, [], ◌++◌, ◌≤◌, length, MatchOption};
ghost use Rattle.base.specs.Ascii.{ascii};
ghost use Rattle.rules.specs.Visit.{look};
ghost use Rattle.tree.specs.code.Kinds.{kind_number};
ghost use Rattle.rules.specs.code.Decoded.{code_number};
ghost use Rattle.page.specs.Page.{Added};
ghost use Rattle.sarif_log.specs.Words.{phrases, reasons, seconds, phrase, kind_word};

use page::Writer;
use rules::Code;
use tree::kinds::ValueKind;

// What is said of a code, before its value.
fn phrase_words(code: Code) -> &'static [u8]
    ensures { result.now ≡ ascii (look (code_number code) phrases "") }
{
    match code {
        Code::UnusedLoad => b"Unused load of",
        Code::UnusedAssign => b"Unused assignment of",
        Code::UnusedArgument => b"Unused argument",
        Code::UsingUnassigned => b"Use of unassigned variable",
        Code::UsingUndefined => b"Use of undefined variable",
        Code::UsingMaybeUndefined => b"Use of potentially undefined variable",
        Code::MissingReturnExpression =>
            b"This return lacks an expression, which is wanted by function",
        Code::MissingReturn => b"No return at the end of function",
        Code::Unreachable => b"Unreachable statement",
        Code::RedundantReturn => b"Redundant return at the end of a function",
        Code::RedundantContinue => b"Redundant continue at the end of a loop",
        Code::MisplacedLoad => b"A load statement not at the top of the file",
        Code::NoEffect => b"Statement has no effect",
        Code::IncompatibleTypeCheck => b"Incompatible check of a type against",
        Code::DuplicateTopLevelAssign => b"Duplicate top-level assignment of",
        Code::DuplicateKey => b"Duplicate dictionary key",
        Code::IdentAsStatement => b"Statement that does nothing or fails: variable",
    }
}

// Why two keys are equal.
fn reason_words(reason: u32) -> &'static [u8]
    ensures { result.now ≡ ascii (look reason reasons "") }
{
    match reason {
        1 => b", the same key again:",
        2 => b", the same number in another form:",
        _ => b"",
    }
}

// What is said of a code, before its value, and of code 16 why the keys are equal. Of a number that is no code's nothing is said.
pub fn phrase(w: &mut Writer<'_>, code: u32, reason: u32)
    ensures { Added w.old w.new 60 (λ rest. phrase code reason ++ rest) }
{
    if let Ok(known) = Code::try_from(code) {
        w.raw(phrase_words(known));
        if code == Code::DuplicateKey as u32 {
            w.raw(reason_words(reason));
        }
    }
}

// A kind of value, with the spaces around it.
fn kind_words(kind: ValueKind) -> &'static [u8]
    ensures { result.now ≡ kind_word (kind_number kind) }
{
    match kind {
        ValueKind::Name => b" ",
        ValueKind::String => b" string ",
        ValueKind::Bytes => b" bytes ",
        ValueKind::Integer => b" integer 0x",
        ValueKind::Float => b" float of bytes ",
    }
}

pub fn kind_word(w: &mut Writer<'_>, kind: usize)
    ensures { Added w.old w.new 16 (λ rest. kind_word kind ++ rest) }
{
    if let Ok(kind) = ValueKind::try_from(kind) {
        w.raw(kind_words(kind));
    }
}

// What a second span is, where the code has one.
pub fn second_words(code: u32) -> Option<&'static [u8]>
    ensures { MatchOption result (ascii (look code seconds "") ≡ []) (λ s. (s.now ≡ ascii (look code seconds "")) × (1 ≤ length s.now)) }
{
    if code == Code::MissingReturnExpression as u32 {
        Some(b"the function")
    } else if code == Code::MissingReturn as u32 {
        Some(b"why the function wants a value")
    } else if code == Code::DuplicateTopLevelAssign as u32 {
        Some(b"first defined here")
    } else if code == Code::DuplicateKey as u32 {
        Some(b"the equal key after it")
    } else {
        None
    }
}
