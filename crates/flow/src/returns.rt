// The first walk: 8 for a def that wants a value and may end without one, then 7 for each bare return of it.
ghost use Rattle.std.specs.Prelude.{◌≡◌, Bool, ◌&&◌, not, [], ◌∷◌, ℕ, ◌+◌, ◌≤◌, eqb};
ghost use Rattle.std.proofs.Math.Option.{some};
ghost use Rattle.tree.specs.Bytes.{kind_at, size_at, pick};
ghost use Rattle.tree.specs.Forest.{node_spot, node_head, forest_of};
ghost use Rattle.tree.specs.code.Part.{Part, Subtree};
ghost use Rattle.rules.specs.Record.{listed};
ghost use Rattle.rules.specs.Visit.{has};
ghost use Rattle.rules.specs.Flow.{everything, the_body, returns, type_reason, reason, first_valued, ends, missing, bare_recs, check_for, check, returns_walk};
ghost use Rattle.answer.specs.Page.{Added};
ghost use Rattle.flow.specs.Returns.{Tidy, TidyAt, DefAt, head_if, own};

use crate::ends::final_return;
use answer::{LentSheet, Note, Place};
use rules::Code;
use tree::bytes::{kind_at, size_at, value_at};
use tree::children::child_of;
use tree::kinds::{Kind, Role};

// A def that wants a value: its node, that of its name, and that of the reason.
#[derive(Clone, Copy)]
struct Wanting {
    at: usize,
    name: usize,
    why: usize,
}

// The return at node j has an expression.
pub(crate) fn is_valued(t: &[u8], j: usize) -> bool
    requires { Subtree t.now j }
    ensures { result ≡ has 4 (forest_of t.now (j + 1) (j + size_at t.now j)) }
{
    child_of(t, Role::Expression as usize, j + 1, j + size_at(t, j)).is_some()
}

// A nested def is not gone into.
fn next(t: &[u8], j: usize) -> usize
    requires { j ≤ 1024 }
    ensures { result ≡ j + pick (eqb 12 (kind_at t.now j)) (size_at t.now j) 1 }
{
    if kind_at(t, j) == Kind::Def as usize {
        j + size_at(t, j)
    } else {
        j + 1
    }
}

fn is_valued_return(t: &[u8], j: usize) -> bool
    requires { Subtree t.now j }
    ensures { result ≡ (eqb 4 (kind_at t.now j) && has 4 (forest_of t.now (j + 1) (j + size_at t.now j))) }
{
    kind_at(t, j) == Kind::Return as usize && is_valued(t, j)
}

// The first return with an expression from node i up to e, outside nested defs.
fn first_valued(t: &[u8], i: usize, e: usize) -> Option<usize>
    requires { Tidy t.now i e }
    ensures { head_if t.now result ≡ first_valued (returns everything (forest_of t.now i e)) }
{
    let mut j = i;
    // Kept: the step is what next reads at node j, which no range counts by.
    while j < e {
        if is_valued_return(t, j) {
            return Some(j);
        }
        j = next(t, j);
    }
    None
}

// A return type other than the identifier None.
fn require_return_expression(t: &[u8], none: usize, i: usize, e: usize) -> Option<usize>
    requires { Part t.now i e × (i ≤ e) }
    ensures { head_if t.now result ≡ type_reason (λ v. eqb v none) (forest_of t.now i e) }
{
    let j = child_of(t, Role::Type as usize, i, e)?;
    if kind_at(t, j) == Kind::Identifier as usize && value_at(t, j) == none {
        return None;
    }
    Some(j)
}

// The first return with an expression in the body of the def at node i.
fn valued_in_body(t: &[u8], i: usize) -> Option<usize>
    requires { DefAt t.now i }
    ensures { head_if t.now result ≡ first_valued (returns the_body (forest_of t.now (i + 1) (i + size_at t.now i))) }
{
    let b = child_of(t, Role::First as usize, i + 1, i + size_at(t, i))?;
    first_valued(t, b, b + size_at(t, b))
}

// Why the def at node i wants a value.
fn reason(t: &[u8], none: usize, i: usize) -> Option<usize>
    requires { DefAt t.now i }
    ensures { head_if t.now result ≡ reason (λ v. eqb v none) (forest_of t.now (i + 1) (i + size_at t.now i)) }
{
    require_return_expression(t, none, i + 1, i + size_at(t, i)).or_else(|| valued_in_body(t, i))
}

// 8 at the def.
fn missing_return(t: &[u8], fail: usize, d: Wanting, sheet: &mut LentSheet<'_>)
    requires { Subtree t.now d.at }
    ensures { Added sheet.old sheet.new (listed (not (ends (λ v. eqb v fail) 1 (forest_of t.now (d.at + 1) (d.at + size_at t.now d.at)))) (missing (node_head t.now d.at) (node_spot t.now d.name) (node_head t.now d.why) ∷ []) []) }
{
    let e = d.at + size_at(t, d.at);
    if !final_return(t, fail, Role::First as usize, d.at + 1, e) {
        sheet.put(
            t,
            Note {
                code: Code::MissingReturn as u32,
                at: d.at,
                value: Place::Node(d.name),
                second: Place::Node(d.why),
                third: Place::Nowhere,
            },
        );
    }
}

// 7 at node j, where it is a bare return.
fn bare_return(t: &[u8], d: Wanting, j: usize, sheet: &mut LentSheet<'_>)
    requires { Subtree t.now j }
    ensures { Added sheet.old sheet.new (bare_recs (node_head t.now d.at) (node_spot t.now d.name) (node_head t.now d.why) (own (node_head t.now j) (forest_of t.now (j + 1) (j + size_at t.now j)))) }
{
    if kind_at(t, j) == Kind::Return as usize && !is_valued(t, j) {
        sheet.put(
            t,
            Note {
                code: Code::MissingReturnExpression as u32,
                at: j,
                value: Place::Node(d.name),
                second: Place::Node(d.at),
                third: Place::Node(d.why),
            },
        );
    }
}

// 7 for each bare return from node b up to e, of the def.
fn bare_returns(t: &[u8], d: Wanting, b: usize, e: usize, sheet: &mut LentSheet<'_>)
    requires { Tidy t.now b e }
    ensures { Added sheet.old sheet.new (bare_recs (node_head t.now d.at) (node_spot t.now d.name) (node_head t.now d.why) (returns everything (forest_of t.now b e))) }
{
    let mut j = b;
    // Kept: the step is what next reads at node j, which no range counts by.
    while j < e {
        bare_return(t, d, j, sheet);
        j = next(t, j);
    }
}

// The def at node i, which wants a value because of node why.
fn check_for(t: &[u8], fail: usize, i: usize, why: usize, sheet: &mut LentSheet<'_>)
    requires { DefAt t.now i }
    ensures { (is_none : ℕ → Bool) → Added sheet.old sheet.new (check_for (λ v. eqb v fail) is_none (node_head t.now i) (forest_of t.now (i + 1) (i + size_at t.now i)) (some (node_head t.now why))) }
{
    let e = i + size_at(t, i);
    let Some(name) = child_of(t, Role::Name as usize, i + 1, e) else {
        return;
    };
    let Some(b) = child_of(t, Role::First as usize, i + 1, e) else {
        return;
    };
    let d = Wanting { at: i, name, why };
    missing_return(t, fail, d, sheet);
    bare_returns(t, d, b, b + size_at(t, b), sheet);
}

fn check_stmt(t: &[u8], fail: usize, none: usize, i: usize, sheet: &mut LentSheet<'_>)
    requires { TidyAt t.now i }
    ensures { Added sheet.old sheet.new (check (λ v. eqb v fail) (λ v. eqb v none) (node_head t.now i).kind (node_head t.now i) (forest_of t.now (i + 1) (i + size_at t.now i))) }
{
    if kind_at(t, i) == Kind::Def as usize
        && let Some(why) = reason(t, none, i)
    {
        check_for(t, fail, i, why, sheet);
    }
}

// Each def before what is below it.
pub(crate) fn stmt(t: &[u8], fail: usize, none: usize, n: usize, sheet: &mut LentSheet<'_>)
    requires { Tidy t.now 0 n }
    ensures { Added sheet.old sheet.new (returns_walk (λ v. eqb v fail) (λ v. eqb v none) (forest_of t.now 0 n)) }
{
    for i in 0..n {
        check_stmt(t, fail, none, i, sheet);
    }
}
