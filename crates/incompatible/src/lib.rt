// Incompatible (002), after incompatible.rs: 14 type check, then 15 duplicate top-level assignment.
// Cost: linear in the nodes. Stack: 3 KiB for what is defined, by value number.
#![tactic(auto)]

ghost use Rattle.std.specs.Prelude.{◌≡◌};
ghost use Rattle.tree.specs.Forest.{forest_of};
ghost use Rattle.tree.specs.code.Part.{Part};
ghost use Rattle.tree.specs.Judge.{judged};
ghost use Rattle.rules.specs.Incompatible.{incompatible};
ghost use Rattle.rules.specs.Calls.{incompatible_call};
ghost use Rattle.incompatible.specs.Ground.{Low};
ghost use Rattle.incompatible.specs.Five.{is, five};

use answer::{LentSheet, Pass, answered};
use rules::{Allowance, Answer, CODES};
use tree::{Facts, judge};
use types::Types;

mod assigns;
mod types;

// A walk over a file's nodes, with what it compares values with and how often x = x is free.
#[derive(Clone, Copy)]
struct Walk<'a> {
    t: &'a [u8],
    nodes: usize,
    names: Types,
    allowed: Allowance,
}

impl Pass for Walk<'_> {
    ghost ready = { λ w. Part w.t.now 0 w.nodes × Low w.t.now w.nodes };

    ghost records = { λ w. incompatible w.allowed (is w.names.call) (five w.names) (forest_of w.t.now 0 w.nodes) };

    fn lint(&self, sheet: &mut LentSheet<'_>) {
        self.names.bad_type_equality(self.t, self.nodes, sheet);
        assigns::duplicate_top_level_assignment(self.t, self.allowed, self.nodes, sheet);
    }
}

// The whole pass over a valid file, f its facts. It requires the judgement, so that the joined call judges a file once.
pub fn lint_valid(t: &[u8], f: Facts, out: &mut [u32], tally: [usize; CODES]) -> Answer
    requires { judged t.now ≡ Ok f }
    ensures { record { answer = result; room = out.new } ≡ incompatible_call t.now out.old tally }
{
    let walk = Walk {
        t,
        nodes: f.nodes,
        names: Types::of(t),
        allowed: Allowance::of(f.version),
    };
    answered(&walk, out, tally)
}

// The whole pass, on any bytes.
pub fn incompatible(t: &[u8], out: &mut [u32], tally: [usize; CODES]) -> Answer
    ensures { record { answer = result; room = out.new } ≡ incompatible_call t.now out.old tally }
{
    match judge(t) {
        Ok(f) => lint_valid(t, f, out, tally),
        Err(why) => answer::refused(why.into()),
    }
}
