// 14: type called with one argument, compared with the name of a type.
ghost use Rattle.std.specs.Prelude.{◌≡◌, ◌||◌, ◌≤◌, eqb};
ghost use Rattle.tree.specs.Forest.{node_head, forest_of};
ghost use Rattle.tree.specs.code.Part.{Part, Subtree};
ghost use Rattle.rules.specs.Visit.{each, how_many};
ghost use Rattle.rules.specs.Incompatible.{identifier, check_at};
ghost use Rattle.answer.specs.Page.{Added};
ghost use Rattle.incompatible.specs.Ground.{inside};
ghost use Rattle.incompatible.specs.Five.{is, five, type_call, NumbersOf, TypeAt};

use answer::{LentSheet, Note, Place};
use rules::Code;
use tree::bytes::{kind_at, size_at, value_at};
use tree::children::child_of;
use tree::kinds::{Kind, Role};
use tree::lookup::number_of;

// The value numbers of the name type and of the five types' names.
// Kept: 65536 for a name that the file has not, since it is no value's number and so compares like any other.
#[derive(Clone, Copy)]
pub(crate) struct Types {
    call: usize,
    boolean: usize,
    tuple: usize,
    string: usize,
    list: usize,
    integer: usize,
}

fn compares(kind: usize) -> bool
    ensures { result ≡ (eqb 31 kind || eqb 32 kind) }
{
    kind == Kind::Equal as usize || kind == Kind::NotEqual as usize
}

// Exactly one of the siblings from i up to e has role 0.
fn one_argument(t: &[u8], i: usize, e: usize) -> bool
    requires { Part t.now i e × (i ≤ e) }
    ensures { result ≡ eqb 1 (how_many 0 (forest_of t.now i e)) }
{
    let Some(j) = child_of(t, Role::Item as usize, i, e) else {
        return false;
    };
    child_of(t, Role::Item as usize, j + size_at(t, j), e).is_none()
}

impl Types {
    pub(crate) fn of(t: &[u8]) -> Types
        ensures { NumbersOf t.now result }
    {
        Types {
            call: number_of(t, b"type"),
            boolean: number_of(t, b"bool"),
            tuple: number_of(t, b"tuple"),
            string: number_of(t, b"str"),
            list: number_of(t, b"list"),
            integer: number_of(t, b"int"),
        }
    }

    fn names_type(&self, v: usize) -> bool
        ensures { result ≡ five self.now v }
    {
        v == self.boolean
            || v == self.tuple
            || v == self.string
            || v == self.list
            || v == self.integer
    }

    // The node of role 2 among the siblings from i up to e, where it is an identifier of one of the five types.
    fn lookup_type(&self, t: &[u8], i: usize, e: usize) -> Option<usize>
        requires { Part t.now i e × (i ≤ e) }
        ensures { TypeAt self.now t.now i e result }
    {
        let j = child_of(t, Role::Second as usize, i, e)?;
        if kind_at(t, j) == Kind::Identifier as usize && self.names_type(value_at(t, j)) {
            Some(j)
        } else {
            None
        }
    }

    // The function among the children from i up to e is the identifier type.
    fn calls_type(&self, t: &[u8], i: usize, e: usize) -> bool
        requires { Part t.now i e × (i ≤ e) }
        ensures { result ≡ identifier 7 (is self.now.call) (forest_of t.now i e) }
    {
        let Some(j) = child_of(t, Role::Function as usize, i, e) else {
            return false;
        };
        kind_at(t, j) == Kind::Identifier as usize && value_at(t, j) == self.call
    }

    // The node of role 1 among the siblings from i up to e matches type(x).
    fn is_type_call(&self, t: &[u8], i: usize, e: usize) -> bool
        requires { Part t.now i e × (i ≤ e) }
        ensures { result ≡ type_call self.now.call (forest_of t.now i e) }
    {
        let Some(j) = child_of(t, Role::First as usize, i, e) else {
            return false;
        };
        let end = j + size_at(t, j);
        kind_at(t, j) == Kind::Call as usize
            && self.calls_type(t, j + 1, end)
            && one_argument(t, j + 1, end)
    }

    fn match_bad_type_equality(&self, t: &[u8], i: usize, sheet: &mut LentSheet<'_>)
        requires { Subtree t.now i }
        ensures { Added sheet.old sheet.new (check_at (is self.now.call) (five self.now) (node_head t.now i) (inside t.now i)) }
    {
        if !compares(kind_at(t, i)) {
            return;
        }
        let e = i + size_at(t, i);
        if !self.is_type_call(t, i + 1, e) {
            return;
        }
        if let Some(j) = self.lookup_type(t, i + 1, e) {
            sheet.put(
                t,
                Note {
                    code: Code::IncompatibleTypeCheck as u32,
                    at: i,
                    value: Place::Node(j),
                    second: Place::Nowhere,
                    third: Place::Nowhere,
                },
            );
        }
    }

    // 14, each node before its children.
    pub(crate) fn bad_type_equality(&self, t: &[u8], n: usize, sheet: &mut LentSheet<'_>)
        requires { Part t.now 0 n }
        ensures { Added sheet.old sheet.new (each (check_at (is self.now.call) (five self.now)) (forest_of t.now 0 n)) }
    {
        for i in 0..n {
            self.match_bad_type_equality(t, i, sheet);
        }
    }
}
