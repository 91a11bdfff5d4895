// Whether a statement is a call of the identifier fail, after is_fail of names.rs and flow.rs. `fail`: the number of that name.
// Bytes that are no tree are gone through too: every step goes on, and none past the end.
#![tactic(auto)]

ghost use Rattle.std.specs.Prelude.{◌≡◌, ◌&&◌, ◌+◌, ◌<◌, ◌≤◌, eqb};
ghost use Rattle.tree.specs.Bytes.{kind_at, role_at, size_at, value_at};
ghost use Rattle.tree.specs.Forest.{forest_of};
ghost use Rattle.tree.specs.code.Part.{Part};
ghost use Rattle.rules.specs.Order.{fail_named, fail_called};

use tree::bytes::{kind_at, role_at, value_at};
use tree::kinds::{Kind, Role};
use tree::siblings::siblings;

// Node j is a function that is the identifier fail.
fn is_named(t: &[u8], fail: usize, j: usize) -> bool
    ensures { result ≡ (eqb 7 (role_at t.now j) && (eqb 20 (kind_at t.now j) && eqb (value_at t.now j) fail)) }
{
    role_at(t, j) == Role::Function as usize
        && kind_at(t, j) == Kind::Identifier as usize
        && value_at(t, j) == fail
}

// The function among the children from i up to e is the identifier fail.
fn names_fail(t: &[u8], fail: usize, i: usize, e: usize) -> bool
    ensures { Part t.now i e → result ≡ fail_named (λ v. eqb v fail) (forest_of t.now i e) }
{
    for j in siblings(t, i, e) {
        if is_named(t, fail, j) {
            return true;
        }
    }
    false
}

// Node j, which ends at e, is an expression that is a call of fail.
fn is_call(t: &[u8], fail: usize, j: usize, e: usize) -> bool
    requires { j < e }
    ensures { Part t.now (j + 1) e → result ≡ (eqb 4 (role_at t.now j) && (eqb 23 (kind_at t.now j) && fail_named (λ v. eqb v fail) (forest_of t.now (j + 1) e))) }
{
    role_at(t, j) == Role::Expression as usize
        && kind_at(t, j) == Kind::Call as usize
        && names_fail(t, fail, j + 1, e)
}

// The expression among a statement's children, from i up to e, is a call of fail.
pub fn is_fail(t: &[u8], fail: usize, i: usize, e: usize) -> bool
    ensures { Part t.now i e → result ≡ fail_called (λ v. eqb v fail) (forest_of t.now i e) }
{
    let mut rest = siblings(t, i, e);
    // Kept: no `for`, since what is below node j ends where the rest begins, if not past the end, and the body reads it.
    while let Some(j) = rest.next() {
        if is_call(t, fail, j, rest.at.min(e)) {
            return true;
        }
    }
    false
}
