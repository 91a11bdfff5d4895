// 01's listing program: the joined call, ordinary keys, on standard input with room for 2,048 records.
#![tactic(auto)]

ghost use Rattle.std.specs.Prelude.{◌≡◌, false};
ghost use Rattle.tree.specs.declared.Mode.TheVariants.{Ordinary};
ghost use Rattle.text.specs.Text.{text_of};

use rules::{WIDTH, WORK_WORDS};
use tree::Mode;

// The words of 2,048 records.
const ANSWER: usize = WIDTH * 2048;

// Bytes for every text of a call with that much answer room.
const PAGE: usize = 11 * ANSWER + 400;

// Kept: desk's `say` has this form with other words, and tells its caller too; one of both would take the words as a parameter.
fn say<P: Print + Eprint>(rt: &P, s: &[u8]) {
    if rt.write_all(s).is_err() {
        let _ = rt.eprintln("standard output can't be written");
    }
}

// Handed to the write call: the text of the joined call on t, lent rooms as long as these.
fn hand<P: Print + Eprint>(rt: &P, s: &[u8], t: &[u8], work: &[u16], answer: &[u32])
    requires { s.now ≡ text_of false Ordinary t.now work.now answer.now }
{
    say(rt, s);
}

fn list<P: Print + Eprint>(rt: &P, t: &[u8]) {
    let mut work = [0u16; WORK_WORDS];
    let mut answer = [0u32; ANSWER];
    let mut page = [0u8; PAGE];
    let n = text::text(t, Mode::Ordinary, &mut work, &mut answer, false, &mut page);
    hand(rt, &page[..n], t, &work, &answer);
}

fn main(rt: HostRuntime) {
    let mut from = rt.stdin();
    let mut bytes = [0u8; 49153];
    let got = input::read_full(&mut from, &mut bytes);
    if 49152 < got {
        say(&rt, b"too long\n");
        return;
    }
    if input::unreadable(&mut from) {
        let _ = rt.eprintln("standard input can't be read");
        return;
    }
    list(&rt, &bytes[..got]);
}
