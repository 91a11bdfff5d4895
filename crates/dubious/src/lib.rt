// Dubious (003), after dubious.rs: 16 duplicate key, then 17 identifier as statement.
// Cost: linear in the nodes, and quadratic in the keys of one dict. Stack: 5 KiB while the numbers of the keys are
// found, 1 KiB of it for as long as they are needed.
#![tactic(auto)]

ghost use Rattle.std.specs.Prelude.{◌≡◌, ◌&&◌, ◌||◌, [], ◌≤◌, eqb, get_or};
ghost use Rattle.tree.specs.Bytes.{value_at};
ghost use Rattle.tree.specs.Forest.{node_head, forest_of};
ghost use Rattle.tree.specs.code.Numbers.{like_by};
ghost use Rattle.tree.specs.code.Part.{Part, Subtree};
ghost use Rattle.tree.specs.Judge.{judged};
ghost use Rattle.rules.specs.Visit.{each};
ghost use Rattle.rules.specs.Dubious.{keys, doubles, dict_at, idle_at, dubious};
ghost use Rattle.rules.specs.Calls.{dubious_call};
ghost use Rattle.answer.specs.Page.{Added};
ghost use Rattle.dubious.specs.Scan.{is_key, doubled, clashes, clash_recs, dict_recs, idle_recs};

use answer::{LentSheet, Note, Pass, Place, answered};
use rules::{Answer, CODES, Code};
use tree::bytes::{kind_at, role_at, size_at, value_at};
use tree::children::child_of;
use tree::keys::{entry_of, key_numbers, like};
use tree::kinds::{Kind, Role};
use tree::siblings::siblings;
use tree::{Facts, Likeness, Mode, judge};

// Identifiers and literals are keys.
fn can_be_key(kind: usize) -> bool
    ensures { result ≡ (eqb 20 kind || eqb 21 kind) }
{
    kind == Kind::Identifier as usize || kind == Kind::Literal as usize
}

// A walk over a file's nodes, with the numbers that stand for its keys.
#[derive(Clone, Copy)]
struct Walk<'a> {
    t: &'a [u8],
    numbers: &'a [u16],
    nodes: usize,
}

impl Walk<'_> {
    // What the key test says of the keys at nodes m and j.
    fn likeness(&self, m: usize, j: usize) -> Likeness
        ensures { result ≡ like_by self.now.numbers.now (value_at self.now.t.now m) (value_at self.now.t.now j) }
    {
        like(self.numbers, value_at(self.t, m), value_at(self.t, j))
    }

    // The role tells first: every second child of a dict is no key.
    fn is_key(&self, j: usize) -> bool
        ensures { result ≡ is_key (node_head self.now.t.now j) }
    {
        role_at(self.t, j) == Role::Key as usize && can_be_key(kind_at(self.t, j))
    }

    // The number that stands for the key at node j.
    fn number(&self, j: usize) -> usize
        ensures { result ≡ get_or self.now.numbers.now (value_at self.now.t.now j) 0 }
    {
        entry_of(self.numbers, value_at(self.t, j))
    }

    // Node m is a key with this number, as keys equal to one that has it are.
    fn is_equal_key(&self, m: usize, number: usize) -> bool
        ensures { result ≡ (is_key (node_head self.now.t.now m) && eqb (get_or self.now.numbers.now (value_at self.now.t.now m) 0) number) }
    {
        self.is_key(m) && self.number(m) == number
    }

    // The last of the siblings from node i on that is a key equal to that of node j.
    fn previous(&self, i: usize, j: usize) -> Option<usize>
        requires { Part self.now.t.now i j }
        ensures { clashes self.now.numbers.now self.now.t.now i j ≡ doubled self.now.numbers.now self.now.t.now result j }
    {
        let number = self.number(j);
        let mut old = None;
        for m in siblings(self.t, i, j) {
            if self.is_equal_key(m, number) {
                old = Some(m);
            }
        }
        old
    }

    // 16 at the previous equal key, and why it is equal, for the key at node j.
    fn clash(&self, i: usize, j: usize, sheet: &mut LentSheet<'_>)
        requires { Part self.now.t.now i j }
        ensures { Added sheet.old sheet.new (clash_recs self.now.numbers.now self.now.t.now i j) }
    {
        if self.is_key(j)
            && let Some(old) = self.previous(i, j)
        {
            sheet.put(
                self.t,
                Note {
                    code: Code::DuplicateKey as u32,
                    at: old,
                    value: Place::Node(j),
                    second: Place::Node(j),
                    third: Place::Reason(self.likeness(old, j)),
                },
            );
        }
    }

    // The keys of a dict with children from node i up to e.
    fn dict(&self, i: usize, e: usize, sheet: &mut LentSheet<'_>)
        requires { Part self.now.t.now i e × (i ≤ e) }
        ensures { Added sheet.old sheet.new (doubles (like_by self.now.numbers.now) [] (keys (forest_of self.now.t.now i e))) }
    {
        for j in siblings(self.t, i, e) {
            self.clash(i, j, sheet);
        }
    }

    fn expr(&self, i: usize, sheet: &mut LentSheet<'_>)
        requires { Subtree self.now.t.now i }
        ensures { Added sheet.old sheet.new (dict_recs self.now.numbers.now self.now.t.now i) }
    {
        if kind_at(self.t, i) == Kind::Dict as usize {
            self.dict(i + 1, i + size_at(self.t, i), sheet);
        }
    }

    // 16, each node before its children.
    fn duplicate_dictionary_key(&self, sheet: &mut LentSheet<'_>)
        requires { Part self.now.t.now 0 self.now.nodes }
        ensures { Added sheet.old sheet.new (each (dict_at (like_by self.now.numbers.now)) (forest_of self.now.t.now 0 self.now.nodes)) }
    {
        for i in 0..self.nodes {
            self.expr(i, sheet);
        }
    }

    fn stmt(&self, i: usize, sheet: &mut LentSheet<'_>)
        requires { Subtree self.now.t.now i }
        ensures { Added sheet.old sheet.new (idle_recs self.now.t.now i) }
    {
        if kind_at(self.t, i) != Kind::Expression as usize {
            return;
        }
        let Some(j) = child_of(
            self.t,
            Role::Expression as usize,
            i + 1,
            i + size_at(self.t, i),
        ) else {
            return;
        };
        if kind_at(self.t, j) == Kind::Identifier as usize {
            sheet.put(
                self.t,
                Note {
                    code: Code::IdentAsStatement as u32,
                    at: j,
                    value: Place::Node(j),
                    second: Place::Nowhere,
                    third: Place::Nowhere,
                },
            );
        }
    }

    // 17, each node before its children.
    fn identifier_as_statement(&self, sheet: &mut LentSheet<'_>)
        requires { Part self.now.t.now 0 self.now.nodes }
        ensures { Added sheet.old sheet.new (each idle_at (forest_of self.now.t.now 0 self.now.nodes)) }
    {
        for i in 0..self.nodes {
            self.stmt(i, sheet);
        }
    }
}

impl Pass for Walk<'_> {
    ghost ready = { λ w. Part w.t.now 0 w.nodes };

    ghost records = { λ w. dubious (like_by w.numbers.now) (forest_of w.t.now 0 w.nodes) };

    fn lint(&self, sheet: &mut LentSheet<'_>) {
        self.duplicate_dictionary_key(sheet);
        self.identifier_as_statement(sheet);
    }
}

// The whole pass over a valid file, f its facts. It requires the judgement, so that the joined call judges a file once.
pub fn lint_valid(t: &[u8], f: Facts, mode: Mode, out: &mut [u32], tally: [usize; CODES]) -> Answer
    requires { judged t.now ≡ Ok f }
    ensures { record { answer = result; room = out.new } ≡ dubious_call mode t.now out.old tally }
{
    let numbers = key_numbers(t, mode);
    let walk = Walk {
        t,
        numbers: &numbers,
        nodes: f.nodes,
    };
    answered(&walk, out, tally)
}

// The whole pass, on any bytes.
pub fn dubious(t: &[u8], mode: Mode, out: &mut [u32], tally: [usize; CODES]) -> Answer
    ensures { record { answer = result; room = out.new } ≡ dubious_call mode t.now out.old tally }
{
    match judge(t) {
        Ok(f) => lint_valid(t, f, mode, out, tally),
        Err(why) => answer::refused(why.into()),
    }
}
