// Judges files at each limit of document 01 and one past it, and files that break one rule, or two at once.
// Standard input has a case after the other: a label's length (a byte), the label, the file's length (32 bits), the file.
// tools/limits.py writes them; stdout beside this program's src/ has what must be printed.
#![tactic(auto)]

use std::io::Read;
use tree::{Facts, Refusal};

// A write that failed isn't told: what is printed is then short, and whoever compares it sees that.
fn print_judged<P: Print>(rt: &P, judged: Result<Facts, Refusal>) {
    let _ = match judged {
        Ok(
            Facts {
                version,
                nodes,
                values,
                names,
                globals,
                ..
            },
        ) => println!(rt;
            ": valid, version {version} nodes {nodes} values {values} names {names} globals {globals}"
        ),
        Err(why) => println!(rt; ": refused {} {}", why.number(), why.place()),
    };
}

// A label, if there is one more, printed.
fn label<R: Read, P: Print>(from: &mut R, rt: &P) -> Option<()> {
    let mut head = [0u8; 1];
    let mut line = [0u8; 256];
    if input::read_full(from, &mut head) < 1 {
        return None;
    }
    let got = input::take_in(from, &mut line, usize::from(head[0]));
    let _ = rt.write_all(&line[..got]);
    Some(())
}

// The next n bytes, judged.
fn judge_next<R: Read, P: Print>(from: &mut R, rt: &P, n: usize) {
    let mut file = [0u8; 200000];
    let got = input::take_in(from, &mut file, n);
    print_judged(rt, tree::judge(&file[..got]));
}

// The file's length, 32 bits.
fn length_next<R: Read>(from: &mut R) -> usize {
    let mut length = [0u8; 4];
    input::read_full(from, &mut length);
    tree::bytes::u32_at(&length, 0)
}

fn cases<R: Read, P: Print>(from: &mut R, rt: &P) {
    for _ in 0..1000 {
        if label(from, rt).is_none() {
            return;
        }
        let n = length_next(from);
        judge_next(from, rt, n);
    }
}

fn main(rt: HostRuntime) {
    cases(&mut rt.stdin(), &rt);
}
