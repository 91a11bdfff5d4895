// Names (000), after names.rs: 1 unused load, 2 unused assign, 3 unused argument, 4 using unassigned, 5 using undefined,
// 6 using maybe undefined.
#![tactic(auto)]

ghost use Rattle.std.specs.Prelude.{◌≡◌, [], ◌∷◌, map, ◌≤◌, ◌<◌, length, replicate, Ok};
ghost use Rattle.tree.specs.Judge.{judged};
ghost use Rattle.tree.specs.code.Part.{Part};
ghost use Rattle.tree.specs.Table.{table_of, underscored, globals_of};
ghost use Rattle.rules.specs.Names.{met, told};
ghost use Rattle.rules.specs.code.Marks.{names_tour};
ghost use Rattle.rules.specs.Outcome.{work_words};
ghost use Rattle.rules.specs.Calls.{names_call};
ghost use Rattle.answer.specs.Page.{Added};
ghost use Rattle.answer.specs.Answers.{Answers};
ghost use Rattle.names.specs.Records.{record_in, records_of, met_words};
ghost use Rattle.scope.specs.State.{out_of};
ghost use Rattle.names.specs.Walk.{module_of, Ready};

use answer::{LentSheet, Note, Place, refused};
use meeting::first_met;
use rules::{Answer, CODES, Refusal, WIDTH, WORK_WORDS};
use scope::Scope;
use scope::table::{CODE, WARN, word_at};
use tree::kinds::Role;
use tree::lookup::number_of;
use tree::{Facts, judge};
use walk::{Walk, Wanted};

mod walk;

// The walk of the n nodes of a file: how many warnings stand in the work room.
fn walked(t: &[u8], n: usize, w: &mut [u16]) -> usize
    requires { Ready t.now n × (work_words ≤ length w.old) }
    ensures { (result ≤ 1024) × (out_of t.now w.new result ≡ names_tour (underscored (table_of t.now)) (globals_of t.now) (module_of t.now n)) }
{
    let fail = number_of(t, b"fail");
    let s = Walk { t, fail }.visit(0, n, Wanted::Of(Role::Item), 0, w, Scope::new());
    s.closed(t, w)
}

// Each of the r warned nodes becomes the first of its span and name that the walk of n nodes meets; it stays where that meets none.
fn first_nodes(t: &[u8], n: usize, w: &mut [u16], r: usize)
    requires { Part t.now 0 n × (r ≤ 1024) × (work_words ≤ length w.old) }
    ensures { w.new ≡ met_words t.now n w.old r }
{
    if 0 < r {
        first_met(t, n, &mut w[WARN..], r);
    }
}

// The record of the k-th warning goes onto the sheet: its value is the name.
fn told(t: &[u8], w: &[u16], k: usize, sheet: &mut LentSheet<'_>)
    requires { k < 1024 }
    ensures { Added sheet.old sheet.new (record_in t.now w.now k ∷ []) }
{
    let at = word_at(w, WARN + k);
    let code = word_at(w, CODE + k);
    sheet.put(
        t,
        Note {
            code: code as u32,
            at,
            value: Place::Node(at),
            second: Place::Nowhere,
            third: Place::Nowhere,
        },
    );
}

// The records of the first n warnings go onto the sheet.
fn records(t: &[u8], w: &[u16], n: usize, sheet: &mut LentSheet<'_>)
    requires { n ≤ 1024 }
    ensures { Added sheet.old sheet.new (records_of t.now w.now n) }
{
    for k in 0..n {
        told(t, w, k, sheet);
    }
}

// What n warnings answer: their records, where there is room for all.
// Kept: no answer::answered: how many records there are is known, so none is written only to be counted.
fn answer_of(t: &[u8], w: &[u16], n: usize, out: &mut [u32], tally: [usize; CODES]) -> Answer
    requires { n ≤ 1024 }
    ensures { Answers (records_of t.now w.now n) out.old tally result out.new }
{
    if out.len() / WIDTH < n {
        return refused(Refusal::AnswerRoom(n));
    }
    let mut sheet = LentSheet::new(out, tally);
    records(t, w, n, &mut sheet);
    sheet.listed()
}

// The pass over the n nodes of a valid file, its work room left zero.
fn lint(t: &[u8], n: usize, w: &mut [u16], out: &mut [u32], tally: [usize; CODES]) -> Answer
    requires { Ready t.now n × (work_words ≤ length w.old) }
    ensures { Answers (map (told (met (module_of t.now n))) (names_tour (underscored (table_of t.now)) (globals_of t.now) (module_of t.now n))) out.old tally result out.new × (w.new ≡ replicate (length w.old) 0) }
{
    let r = walked(t, n, w);
    first_nodes(t, n, w, r);
    let a = answer_of(t, w, r, out, tally);
    w.fill(0);
    a
}

// The whole pass over a valid file, f its facts. Of the work room it lends no word beyond the first 32,768.
// It requires the judgement, so that the joined call judges a file once.
pub fn lint_valid(
    t: &[u8],
    f: Facts,
    work: &mut [u16],
    out: &mut [u32],
    tally: [usize; CODES],
) -> Answer
    requires { judged t.now ≡ Ok f }
    ensures { record { answer = result; room = out.new; work = work.new } ≡ names_call t.now work.old out.old tally }
{
    if work.len() < WORK_WORDS {
        return refused(Refusal::WorkRoom);
    }
    lint(t, f.nodes, &mut work[..WORK_WORDS], out, tally)
}

// The whole pass, on any bytes.
pub fn names(t: &[u8], work: &mut [u16], out: &mut [u32], tally: [usize; CODES]) -> Answer
    ensures { record { answer = result; room = out.new; work = work.new } ≡ names_call t.now work.old out.old tally }
{
    match judge(t) {
        Ok(f) => lint_valid(t, f, work, out, tally),
        Err(why) => refused(why.into()),
    }
}
