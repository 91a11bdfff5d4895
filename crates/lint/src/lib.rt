// The joined call: names, flow, incompatible, dubious, each pass's records after those of the one before. The file is judged once.
// The three passes that need no work room are asked first how many records they have, each lent no room; names runs once, in
// the room that those records leave; then each of the three is lent the part after the records before it.
#![tactic(auto)]

ghost use Rattle.std.specs.Prelude.{◌≡◌, ◌+◌, ◌*◌, ◌≤◌, length, Ok};
ghost use Rattle.std.proofs.Props.{props};
ghost use Rattle.tree.specs.Judge.{judged};
ghost use Rattle.rules.specs.Record.{width};
ghost use Rattle.rules.specs.Calls.{done, lint_call};
ghost use Rattle.lint.specs.Links.{about, refusal_with, after_names};

use rules::{Answer, CODES, Refusal, WIDTH};
use tree::{Facts, Mode, judge};

// How many records an outcome is about, written or not.
fn about(o: Result<usize, Refusal>) -> usize
    ensures { result ≡ about o }
{
    match o {
        Ok(n) | Err(Refusal::AnswerRoom(n)) => n,
        Err(_) => 0,
    }
}

// The answer of the passes from one on, where n records stand before it.
fn after(n: usize, a: Answer) -> Answer
    requires { n + about a.outcome ≤ 18446744073709551615 }
    ensures { (result.outcome ≡ Ok (n + about a.outcome)) × (result.tally ≡ a.tally) }
{
    Answer {
        outcome: Ok(n + about(a.outcome)),
        ..a
    }
}

// The refusal where names has come to o and the answer room is short, with the records of the passes after it counted in.
fn refusal_with(o: Result<usize, Refusal>, rest: usize) -> Refusal
    requires { about o + rest ≤ 18446744073709551615 }
    ensures { result ≡ refusal_with o rest }
{
    match o {
        Ok(n) | Err(Refusal::AnswerRoom(n)) => Refusal::AnswerRoom(n + rest),
        Err(why) => why,
    }
}

// A file judged valid, and how its keys are compared.
#[derive(Clone, Copy)]
struct File<'a> {
    tree: &'a [u8],
    facts: Facts,
    mode: Mode,
    ghost valid: { judged tree.now ≡ Ok facts } by { Prim.hlevel props },
}

impl File<'_> {
    // The records of flow, incompatible and dubious together, none written.
    fn rest_needed(&self) -> usize
        ensures { result ≡ length (after_names self.now.mode self.now.tree.now) }
    {
        let zero = [0; CODES];
        let a = flow::lint_valid(self.tree, self.facts, &mut [], zero);
        let b = incompatible::lint_valid(self.tree, self.facts, &mut [], zero);
        let c = dubious::lint_valid(self.tree, self.facts, self.mode, &mut [], zero);
        about(a.outcome) + about(b.outcome) + about(c.outcome)
    }

    // Flow, incompatible and dubious, in a room for all their records.
    fn rest(&self, out: &mut [u32], tally: [usize; CODES]) -> Answer
        requires { width * length (after_names self.now.mode self.now.tree.now) ≤ length out.old }
        ensures { record { answer = result; room = out.new }
            ≡ done (after_names self.now.mode self.now.tree.now) self.now.tree.now out.old tally }
    {
        let a = flow::lint_valid(self.tree, self.facts, out, tally);
        let n = about(a.outcome);
        let b = incompatible::lint_valid(self.tree, self.facts, &mut out[WIDTH * n..], a.tally);
        let m = n + about(b.outcome);
        let c = dubious::lint_valid(
            self.tree,
            self.facts,
            self.mode,
            &mut out[WIDTH * m..],
            b.tally,
        );
        after(m, c)
    }

    // The four passes.
    fn joined(&self, work: &mut [u16], out: &mut [u32]) -> Answer
        ensures { record { answer = result; room = out.new; work = work.new } ≡ lint_call self.now.mode self.now.tree.now work.old out.old }
    {
        let rest = self.rest_needed();
        let room = out.len() / WIDTH;
        let lent = WIDTH * room.saturating_sub(rest);
        let a = names::lint_valid(self.tree, self.facts, work, &mut out[..lent], [0; CODES]);
        match a.outcome {
            Ok(n) if rest <= room => after(n, self.rest(&mut out[WIDTH * n..], a.tally)),
            other => answer::refused(refusal_with(other, rest)),
        }
    }
}

// Every call of lint is this one: warnings or one numbered refusal.
pub fn lint(t: &[u8], mode: Mode, work: &mut [u16], out: &mut [u32]) -> Answer
    ensures { record { answer = result; room = out.new; work = work.new } ≡ lint_call mode t.now work.old out.old }
{
    let facts = match judge(t) {
        Ok(facts) => facts,
        Err(why) => return answer::refused(why.into()),
    };
    let file = File {
        tree: t,
        facts,
        mode,
    };
    file.joined(work, out)
}
