// The joined call's text, 01's listing, in lent bytes: a program hands it to one write. A byte for which there is no room is only counted.
#![tactic(auto)]

ghost use Rattle.std.specs.Prelude.{◌≡◌, ◌∷◌, ◌++◌, ◌+◌, ◌*◌, ◌≤◌, length, drop};
ghost use Rattle.rules.specs.Record.{words, width};
ghost use Rattle.rules.specs.Joined.{codes};
ghost use Rattle.rules.specs.Afterwards.{record_in, records_in};
ghost use Rattle.page.specs.Page.{Wrote, Added};
ghost use Rattle.text.specs.Text.{line, records as records_text, listing, refused as refused_text, text_call};
ghost use Rattle.text.specs.Pieces.{end_of, tally_line};

use page::Writer;
use rules::{CODES, Refusal, WIDTH};
use tree::Mode;

// What stands after a number: a space, or after the last of its line the line's end.
fn after(w: &mut Writer<'_>, last: bool)
    ensures { Added w.old w.new 1 (λ rest. end_of last ∷ rest) }
{
    if last {
        w.put(b'\n');
    } else {
        w.put(b' ');
    }
}

// A record on its line.
// Kept: beside `counts`, whose numbers are of 64 bits and have twenty digits, not ten; the page is sized by the ten.
fn entry(w: &mut Writer<'_>, room: &[u32], first: usize)
    requires { first + width ≤ length room.now }
    ensures { Added w.old w.new (11 * width) (λ rest. line (words (record_in (drop first room.now))) ++ rest) }
{
    for k in 0..WIDTH {
        w.number(room[first + k]);
        after(w, k + 1 == WIDTH);
    }
}

// The first `many` records of the room, each on its line.
fn records(w: &mut Writer<'_>, room: &[u32], many: usize)
    requires { width * many ≤ length room.now }
    ensures { Added w.old w.new (11 * width * many) (λ rest. records_text (records_in many room.now) ++ rest) }
{
    for r in 0..many {
        entry(w, room, WIDTH * r);
    }
}

// Counts on a line.
fn counts(w: &mut Writer<'_>, ns: &[usize])
    ensures { Added w.old w.new (21 * length ns.now) (λ rest. line ns.now ++ rest) }
{
    for k in 0..ns.len() {
        w.decimal(ns[k]);
        after(w, k + 1 == ns.len());
    }
}

// A list of so many records.
fn listed(w: &mut Writer<'_>, room: &[u32], many: usize)
    requires { width * many ≤ length room.now }
    ensures { Added w.old w.new (11 * width * many + 27) (λ rest. listing (records_in many room.now) ++ rest) }
{
    records(w, room, many);
    w.raw(b"total ");
    counts(w, &[many]);
}

// A refusal's line.
pub fn refused(out: &mut [u8], why: Refusal) -> usize
    ensures { Wrote out.old 0 out.new result 50 (λ rest. refused_text why ++ rest) }
{
    let mut w = Writer::new(out);
    w.raw(b"refused ");
    counts(&mut w, &[why.number(), why.place()]);
    w.count
}

// The count of each code, where it is asked for.
fn tally(w: &mut Writer<'_>, asked: bool, ns: [usize; CODES])
    ensures { Added w.old w.new (6 + 21 * codes) (λ rest. tally_line asked ns ++ rest) }
{
    if asked {
        w.raw(b"tally ");
        counts(w, &ns);
    }
}

// The joined call, and its text from the first byte of `out` on: how many bytes it has.
pub fn text(
    t: &[u8],
    mode: Mode,
    work: &mut [u16],
    answer: &mut [u32],
    asked: bool,
    out: &mut [u8],
) -> usize
    ensures { (record { count = result; page = out.new; work = work.new; room = answer.new } ≡ text_call asked mode t.now work.old answer.old out.old) × (result ≤ 11 * length answer.old + 400) }
{
    let a = lint::lint(t, mode, work, answer);
    match a.outcome {
        Ok(n) => {
            let mut w = Writer::new(out);
            listed(&mut w, answer, n);
            tally(&mut w, asked, a.tally);
            w.count
        }
        Err(why) => refused(out, why),
    }
}
