// For measuring: makes the joined call, or one part of it, as often as asked on each file, and prints how many records it gave.
// Standard input: part and repeats (32 bits each), then files, each after its length (32 bits). Parts: 0 judging alone, 1 names,
// 2 flow, 3 incompatible, 4 dubious, 5 the joined call. compare/speed is the same over the Rust.
#![tactic(auto)]

use rules::{CODES, WIDTH, WORK_WORDS};
use std::io::Read;
use tree::Mode;
use tree::bytes::u32_at;

// The words of 2,048 records.
const ROOM: usize = WIDTH * 2048;

#[derive(Clone, Copy, Debug, PartialEq, Eq)]
enum Part {
    Judging,
    Names,
    Flow,
    Incompatible,
    Dubious,
    Joined,
}

// Any other number is the joined call, too.
impl From<usize> for Part {
    fn from(number: usize) -> Self {
        match number {
            0 => Part::Judging,
            1 => Part::Names,
            2 => Part::Flow,
            3 => Part::Incompatible,
            4 => Part::Dubious,
            _ => Part::Joined,
        }
    }
}

fn once(part: Part, t: &[u8], work: &mut [u16], out: &mut [u32]) -> usize {
    let zero = [0; CODES];
    let answer = match part {
        Part::Judging => {
            let _ = tree::judge(t);
            return 0;
        }
        Part::Names => names::names(t, work, out, zero),
        Part::Flow => flow::flow(t, out, zero),
        Part::Incompatible => incompatible::incompatible(t, out, zero),
        Part::Dubious => dubious::dubious(t, Mode::Ordinary, out, zero),
        Part::Joined => lint::lint(t, Mode::Ordinary, work, out),
    };
    answer.outcome.unwrap_or(0)
}

fn repeat(part: Part, repeats: usize, t: &[u8], work: &mut [u16], out: &mut [u32]) -> usize {
    let mut last = 0;
    for _ in 0..repeats {
        last = once(part, t, work, out);
    }
    last
}

fn file<P: Print>(rt: &P, part: Part, repeats: usize, t: &[u8]) {
    let mut work = [0u16; WORK_WORDS];
    let mut out = [0u32; ROOM];
    let n = repeat(part, repeats, t, &mut work, &mut out);
    let _ = rt.println(n);
}

// The next file, if there is one more.
fn next<R: Read, P: Print>(from: &mut R, rt: &P, part: Part, repeats: usize) -> Option<()> {
    let mut head = [0u8; 4];
    let mut bytes = [0u8; 200000];
    if input::read_full(from, &mut head) < 4 {
        return None;
    }
    let got = input::take_in(from, &mut bytes, u32_at(&head, 0));
    file(rt, part, repeats, &bytes[..got]);
    Some(())
}

fn files<R: Read, P: Print>(from: &mut R, rt: &P, part: Part, repeats: usize) {
    for _ in 0..1000000 {
        if next(from, rt, part, repeats).is_none() {
            return;
        }
    }
}

fn main(rt: HostRuntime) {
    let mut from = rt.stdin();
    let mut head = [0u8; 8];
    input::read_full(&mut from, &mut head);
    let part = Part::from(u32_at(&head, 0));
    files(&mut from, &rt, part, u32_at(&head, 4));
}
