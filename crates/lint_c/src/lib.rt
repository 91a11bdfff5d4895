// The library for C and Rust: the joined call, its list as a SARIF log, and what a code is, by numbers and slices alone.
// include/yudronkha.h is what a caller reads.
#![tactic(auto)]

ghost use Rattle.std.specs.Prelude.{◌≡◌, ◌+◌, [], ◌∷◌, ◌++◌, min, length, take, drop};
ghost use Rattle.tree.specs.declared.Mode.TheVariants.{Ordinary, Strict};
ghost use Rattle.rules.specs.Codes.{disabled, short_name};
ghost use Rattle.rules.specs.Joined.{codes};
ghost use Rattle.lint_c.specs.Face.{library_version, severity_number, short_named, number_of, place_of, called, as_listed, bytes_of, sarif_called};

use rules::{CODES, Refusal};
use sarif::Sizes;
use tree::Mode;

// Major * 10000 + minor * 100 + patch; include/yudronkha.h says when each goes up.
const VERSION: usize = 30100;

// The words of a report: a place, then the count of each code. A log's has one word more, its bytes.
const REPORT: usize = CODES + 1;

const LOG_REPORT: usize = REPORT + 1;

// A room of any length gets the words or bytes that it has room for.
fn lay<T: Copy>(words: &[T], room: &mut [T])
    ensures { room.new ≡ take (min (length words.now) (length room.old)) words.now ++ drop (min (length words.now) (length room.old)) room.old }
{
    let n = words.len().min(room.len());
    room[..n].copy_from_slice(&words[..n]);
}

#[unsafe(no_mangle)]
pub extern "C" fn yudronkha_version() -> usize
    ensures { result ≡ library_version }
{
    VERSION
}

// ---- a code

// No number above the last code is one: those that are no u32 answer as 0 does.
fn code_of(code: usize) -> u32
    ensures { (disabled result ≡ disabled code) × (short_name result ≡ short_name code) }
{
    u32::try_from(code).unwrap_or(0)
}

#[unsafe(no_mangle)]
pub extern "C" fn yudronkha_severity(code: usize) -> usize
    ensures { result ≡ severity_number code }
{
    codes::severity(code_of(code)) as usize
}

// The length is the whole name's, however short the room.
#[unsafe(no_mangle)]
pub extern "C" fn yudronkha_short_name(code: usize, name: &mut [u8]) -> usize
    ensures { record { number = result; name = name.new } ≡ short_named code name.old }
{
    let whole = codes::short_name(code_of(code));
    lay(whole, name);
    whole.len()
}

// ---- the list

fn number_of(o: Result<usize, Refusal>) -> usize
    ensures { result ≡ number_of o }
{
    match o {
        Ok(_) => 0,
        Err(why) => why.number(),
    }
}

fn place_of(o: Result<usize, Refusal>) -> usize
    ensures { result ≡ place_of o }
{
    o.unwrap_or_else(|why| why.place())
}

// The words of a report, and the bytes of a log after them: the count of a code stands at the code's own number.
fn words_of(place: usize, tally: [usize; CODES], bytes: usize) -> [usize; LOG_REPORT]
    ensures { (result ≡ (place ∷ tally) ++ (bytes ∷ [])) × (length result ≡ codes + 2) }
{
    let mut words = [bytes; LOG_REPORT];
    words[0] = place;
    words[1..REPORT].copy_from_slice(&tally);
    words
}

fn call(t: &[u8], mode: Mode, work: &mut [u16], out: &mut [u32], report: &mut [usize]) -> usize
    ensures { record { number = result; work = work.new; room = out.new; report = report.new } ≡ called mode t.now work.old out.old report.old }
{
    let a = lint::lint(t, mode, work, out);
    let words = words_of(place_of(a.outcome), a.tally, 0);
    lay(&words[..REPORT], report);
    number_of(a.outcome)
}

// Kept: a function for each mode, since C names one by what it exports (yudronkha_lint and yudronkha_lint_strict; yudronkha_sarif likewise).
// The joined call, ordinary keys.
#[unsafe(no_mangle)]
pub extern "C" fn yudronkha_lint(
    tree: &[u8],
    work: &mut [u16],
    answer: &mut [u32],
    report: &mut [usize],
) -> usize
    ensures { record { number = result; work = work.new; room = answer.new; report = report.new } ≡ called Ordinary tree.now work.old answer.old report.old }
{
    call(tree, Mode::Ordinary, work, answer, report)
}

// The joined call, strict keys.
#[unsafe(no_mangle)]
pub extern "C" fn yudronkha_lint_strict(
    tree: &[u8],
    work: &mut [u16],
    answer: &mut [u32],
    report: &mut [usize],
) -> usize
    ensures { record { number = result; work = work.new; room = answer.new; report = report.new } ≡ called Strict tree.now work.old answer.old report.old }
{
    call(tree, Mode::Strict, work, answer, report)
}

// ---- the list as a SARIF log

fn as_listed(o: Result<Sizes, Refusal>) -> Result<usize, Refusal>
    ensures { result ≡ as_listed o }
{
    o.map(|n| n.records)
}

fn bytes_of(o: Result<Sizes, Refusal>) -> usize
    ensures { result ≡ bytes_of o }
{
    o.map_or(0, |n| n.bytes)
}

// Kept: not one function with call, since it lends a room more and its answer is of another type; they share words_of and lay.
fn log_call(
    t: &[u8],
    mode: Mode,
    work: &mut [u16],
    out: &mut [u32],
    output: &mut [u8],
    report: &mut [usize],
) -> usize
    ensures { record { number = result; work = work.new; room = out.new; output = output.new; report = report.new } ≡ sarif_called mode t.now work.old out.old output.old report.old }
{
    let a = sarif::sarif(t, mode, work, out, output);
    let listed = as_listed(a.outcome);
    lay(
        &words_of(place_of(listed), a.tally, bytes_of(a.outcome)),
        report,
    );
    number_of(listed)
}

// The list as a SARIF log, ordinary keys.
#[unsafe(no_mangle)]
pub extern "C" fn yudronkha_sarif(
    tree: &[u8],
    work: &mut [u16],
    answer: &mut [u32],
    output: &mut [u8],
    report: &mut [usize],
) -> usize
    ensures { record { number = result; work = work.new; room = answer.new; output = output.new; report = report.new } ≡ sarif_called Ordinary tree.now work.old answer.old output.old report.old }
{
    log_call(tree, Mode::Ordinary, work, answer, output, report)
}

// The list as a SARIF log, strict keys.
#[unsafe(no_mangle)]
pub extern "C" fn yudronkha_sarif_strict(
    tree: &[u8],
    work: &mut [u16],
    answer: &mut [u32],
    output: &mut [u8],
    report: &mut [usize],
) -> usize
    ensures { record { number = result; work = work.new; room = answer.new; output = output.new; report = report.new } ≡ sarif_called Strict tree.now work.old answer.old output.old report.old }
{
    log_call(tree, Mode::Strict, work, answer, output, report)
}
