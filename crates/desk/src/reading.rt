// Requests as they come from a reader: standard input.
ghost use Rattle.std.specs.Prelude.{◌*◌, ◌≤◌};
ghost use Rattle.rules.specs.Record.{width};
ghost use Rattle.rules.specs.Outcome.{work_words};

use crate::answers::ANSWER;
use crate::choices::Choices;
use rules::WORK_WORDS;
use std::io::Read;
use tree::bytes::u32_at;

// No valid tree is longer: `file_longest` of tree, proofs/Longest.
pub const LONGEST: usize = 149515;

// The largest size that can be asked for, above every room and every log: it bounds nothing, so no log is measured for it.
const ALL: usize = 4294967295;

// How much of the program's rooms a request is lent, and the output room that it asks for its log, if it does.
#[derive(Clone, Copy, Debug, PartialEq, Eq)]
pub struct Sizes {
    pub work: usize,
    pub answer: usize,
    pub output: Option<usize>,
    ghost work_there: { work ≤ work_words },
    ghost answer_there: { answer ≤ width * 10240 },
}

// Standard input ended inside a request.
#[derive(Clone, Copy, Debug, PartialEq, Eq)]
pub struct Cut;

// The next 32 bits, if there are more.
pub fn next<R: Read>(from: &mut R) -> Result<Option<usize>, Cut> {
    let mut four = [0u8; 4];
    match input::read_full(from, &mut four) {
        0 => Ok(None),
        4 => Ok(Some(u32_at(&four, 0))),
        _ => Err(Cut),
    }
}

// The sizes that follow, or all that there is. Where they are cut short, so is the input after them.
pub fn lent<R: Read>(from: &mut R, choices: Choices) -> Sizes {
    if !choices.rooms() {
        return Sizes {
            work: WORK_WORDS,
            answer: ANSWER,
            output: None,
        };
    }
    let mut four = [0u8; 16];
    input::read_full(from, &mut four);
    let output = u32_at(&four, 8);
    Sizes {
        work: u32_at(&four, 0).min(WORK_WORDS),
        answer: u32_at(&four, 4).min(ANSWER),
        output: (output < ALL).then_some(output),
    }
}

// The length of an input.
fn length<R: Read>(from: &mut R) -> Result<usize, Cut> {
    next(from)?.ok_or(Cut)
}

// Reads over n bytes.
// Kept: a `while`, since it goes on by what each read gave.
fn skip<R: Read>(from: &mut R, n: usize) -> Result<(), Cut> {
    let mut left = n;
    while 0 < left {
        let mut some = [0u8; 65536];
        let got = input::take_in(from, &mut some, left);
        if got == 0 {
            return Err(Cut);
        }
        left = left.saturating_sub(got);
    }
    Ok(())
}

// An input after its length, unless it has more bytes than any tree.
fn first<'a, R: Read>(from: &mut R, bytes: &'a mut [u8]) -> Result<Option<&'a [u8]>, Cut> {
    let n = length(from)?;
    let Some(room) = bytes.get_mut(..n) else {
        skip(from, n)?;
        return Ok(None);
    };
    if input::read_full(from, room) < n {
        return Err(Cut);
    }
    Ok(Some(room))
}

fn second<R: Read>(from: &mut R) -> Result<(), Cut> {
    let n = length(from)?;
    skip(from, n)
}

// The first input. A second one is read over: no choice that is known has one.
pub fn inputs<'a, R: Read>(
    from: &mut R,
    bytes: &'a mut [u8],
    choices: Choices,
) -> Result<Option<&'a [u8]>, Cut> {
    let got = first(from, bytes);
    if choices.second() {
        second(from)?;
    }
    got
}
