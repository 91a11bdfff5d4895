// Flow (001), after flow.rs: five walks in order.
// Cost: each walk visits a node a bounded number of times; the deepest calls follow the depth of the tree, 48.
#![tactic(auto)]

ghost use Rattle.std.specs.Prelude.{◌≡◌};
ghost use Rattle.tree.specs.Judge.{judged};
ghost use Rattle.rules.specs.Calls.{flow_call};

use answer::{LentSheet, Pass, answered, refused};
use rules::{Answer, CODES};
use tree::lookup::{number_of, strings};
use tree::{Facts, judge};

mod effect;
mod ends;
mod last;
mod loads;
mod reach;
mod redundant;
mod returns;

// A file of n nodes, the numbers of its names fail and None, and which of its values are strings. A walk is lent what it reads of these.
// Kept: siblings are t, i and e (from node i up to e), as tree's child_of and fail's is_fail take them: a struct would be taken apart.
#[derive(Drop)]
struct Walks<'a> {
    t: &'a [u8],
    n: usize,
    fail: usize,
    none: usize,
    strings: [bool; 512],
}

impl Pass for Walks<'_> {
    ghost use Rattle.std.specs.Prelude.{eqb};
    ghost use Rattle.tree.specs.Forest.{forest_of};
    ghost use Rattle.rules.specs.Flow.{flow};
    ghost use Rattle.flow.specs.Returns.{Checked};
    ghost use Rattle.flow.specs.Walks.{is_text};

    ghost ready = { λ p. Checked p.t.now p.n };

    ghost records = { λ p. flow (λ v. eqb v p.fail) (λ v. eqb v p.none) (is_text p.strings) (forest_of p.t.now 0 p.n) };

    fn lint(&self, sheet: &mut LentSheet<'_>) {
        returns::stmt(self.t, self.fail, self.none, self.n, sheet);
        reach::whole(self.t, self.fail, self.n, sheet);
        redundant::redundant(self.t, self.n, sheet);
        loads::misplaced_load(self.t, &self.strings, self.n, sheet);
        effect::no_effect(self.t, &self.strings, self.n, sheet);
    }
}

// The whole pass over a valid file, f its facts: counted first, into no room, and written where there is room for all.
// It requires the judgement, so that the joined call judges a file once.
pub fn lint_valid(t: &[u8], f: Facts, out: &mut [u32], tally: [usize; CODES]) -> Answer
    requires { judged t.now ≡ Ok f }
    ensures { record { answer = result; room = out.new } ≡ flow_call t.now out.old tally }
{
    // Kept: a name that the file has not is 65536 to number_of, no value's number, so that it compares like any other.
    let walks = Walks {
        t,
        n: f.nodes,
        fail: number_of(t, b"fail"),
        none: number_of(t, b"None"),
        strings: strings(t),
    };
    answered(&walks, out, tally)
}

// The whole pass, on any bytes.
pub fn flow(t: &[u8], out: &mut [u32], tally: [usize; CODES]) -> Answer
    ensures { record { answer = result; room = out.new } ≡ flow_call t.now out.old tally }
{
    match judge(t) {
        Ok(f) => lint_valid(t, f, out, tally),
        Err(why) => refused(why.into()),
    }
}
