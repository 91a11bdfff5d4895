// The second walk: 9 for the first statement after one that aborts.
ghost use Rattle.std.specs.Prelude.{◌≡◌, ◌||◌, ◌+◌, ◌≤◌, eqb};
ghost use Rattle.tree.specs.Bytes.{size_at};
ghost use Rattle.tree.specs.Forest.{node_head, forest_of};
ghost use Rattle.tree.specs.code.Part.{Part, Subtree};
ghost use Rattle.rules.specs.Flow.{reached, reached_part, in_list as in_a_list, one_by_one as each_one, only, both as both_of};
ghost use Rattle.answer.specs.Page.{Added};
ghost use Rattle.flow.specs.Walks.{is_name, Walked};

use answer::LentSheet;
use fail::is_fail;
use rules::Code;
use tree::bytes::{kind_at, size_at};
use tree::children::child_of;
use tree::kinds::{Kind, Role};
use tree::siblings::siblings;

fn stops(k: usize) -> bool
    ensures { result ≡ (eqb k 1 || (eqb k 2 || eqb k 4)) }
{
    k == Kind::Break as usize || k == Kind::Continue as usize || k == Kind::Return as usize
}

// The statement at node i; whether it aborts.
#[cycle(reaching)]
fn reachable(t: &[u8], fail: usize, i: usize, sheet: &mut LentSheet<'_>) -> bool
    requires { Subtree t.now i }
    ensures { Walked sheet.old sheet.new result (reached_part (is_name fail) (node_head t.now i).kind (forest_of t.now (i + 1) (i + size_at t.now i)) (λ v. reached (is_name fail) v (forest_of t.now (i + 1) (i + size_at t.now i)))) }
{
    let k = kind_at(t, i);
    let e = i + size_at(t, i);
    // Kept: a chain of ifs, since a kind is read as any number, and `Kind::If as usize` is no pattern of a match.
    if k == Kind::Statements as usize {
        in_list(t, fail, i + 1, e, sheet)
    } else if k == Kind::IfElse as usize {
        sides(t, fail, i + 1, e, sheet)
    } else if k == Kind::Expression as usize {
        is_fail(t, fail, i + 1, e)
    } else if stops(k) {
        true
    } else {
        each(t, fail, i + 1, e, sheet);
        false
    }
}

// Statements in a row: after one that aborts the next is reported, and the rest is not walked.
#[cycle(reaching)]
fn in_list(t: &[u8], fail: usize, i: usize, e: usize, sheet: &mut LentSheet<'_>) -> bool
    requires { Part t.now i e × (i ≤ e) }
    ensures { Walked sheet.old sheet.new result (reached (is_name fail) in_a_list (forest_of t.now i e)) }
{
    let mut aborts = false;
    for j in siblings(t, i, e) {
        if aborts {
            sheet.put_plainly(t, Code::Unreachable as u32, j);
            return true;
        }
        aborts = reachable(t, fail, j, sheet);
    }
    aborts
}

// All the children, each by itself.
#[cycle(reaching)]
fn each(t: &[u8], fail: usize, i: usize, e: usize, sheet: &mut LentSheet<'_>)
    requires { Part t.now i e × (i ≤ e) }
    ensures { Added sheet.old sheet.new (reached (is_name fail) each_one (forest_of t.now i e)).recs }
{
    for j in siblings(t, i, e) {
        reachable(t, fail, j, sheet);
    }
}

// The first child of the role, where there is one.
#[cycle(reaching)]
fn side(t: &[u8], fail: usize, role: usize, i: usize, e: usize, sheet: &mut LentSheet<'_>) -> bool
    requires { Part t.now i e × (i ≤ e) }
    ensures { Walked sheet.old sheet.new result (reached (is_name fail) (only role) (forest_of t.now i e)) }
{
    match child_of(t, role, i, e) {
        Some(j) => reachable(t, fail, j, sheet),
        None => false,
    }
}

// Both sides are walked, whether or not the first aborts.
#[cycle(reaching)]
fn sides(t: &[u8], fail: usize, i: usize, e: usize, sheet: &mut LentSheet<'_>) -> bool
    requires { Part t.now i e × (i ≤ e) }
    ensures { Walked sheet.old sheet.new result (both_of (reached (is_name fail) (only 1) (forest_of t.now i e)) (reached (is_name fail) (only 2) (forest_of t.now i e))) }
{
    let first = side(t, fail, Role::First as usize, i, e, sheet);
    let second = side(t, fail, Role::Second as usize, i, e, sheet);
    first && second
}

pub(crate) fn whole(t: &[u8], fail: usize, n: usize, sheet: &mut LentSheet<'_>)
    requires { Part t.now 0 n }
    ensures { Added sheet.old sheet.new (reached (is_name fail) (only 0) (forest_of t.now 0 n)).recs }
{
    side(t, fail, Role::Item as usize, 0, n, sheet);
}
