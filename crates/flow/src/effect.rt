// The fifth walk: 13 for an expression without effect as a statement.
ghost use Rattle.std.specs.Prelude.{◌≡◌, ◌||◌, ◌+◌, ◌<◌, eqb};
ghost use Rattle.tree.specs.Bytes.{size_at};
ghost use Rattle.tree.specs.Forest.{node_head, forest_of};
ghost use Rattle.tree.specs.code.Part.{Part, Subtree};
ghost use Rattle.rules.specs.Flow.{effect, effect_walk};
ghost use Rattle.answer.specs.Page.{Added};
ghost use Rattle.flow.specs.Returns.{Checked};
ghost use Rattle.flow.specs.Walks.{Stated, is_text, of_children, acting, inside, idle_at, past_of};

use crate::loads::is_string;
use answer::LentSheet;
use rules::Code;
use tree::bytes::{kind_at, size_at, value_at};
use tree::children::child_of;
use tree::kinds::{Kind, Role};

// Conditionals, tuples, lists and dicts have effect by their children.
fn by_children(k: usize) -> bool
    ensures { result ≡ of_children k }
{
    (Kind::Tuple as usize..=Kind::Conditional as usize).contains(&k)
}

// Ellipsis and lambdas have none.
fn has_none(k: usize) -> bool
    ensures { result ≡ (eqb k 22 || eqb k 24) }
{
    k == Kind::Ellipsis as usize || k == Kind::Lambda as usize
}

// Node j has effect by itself: a string literal, and what is no literal, and neither has none nor has it by its children.
fn acts(t: &[u8], strings: &[bool; 512], j: usize) -> bool
    ensures { result ≡ acting strings.now (node_head t.now j) }
{
    let k = kind_at(t, j);
    if k == Kind::Literal as usize {
        return is_string(strings, value_at(t, j));
    }
    !has_none(k) && !by_children(k)
}

// The insides of what has no effect by its children are not looked at.
fn inward(t: &[u8], j: usize) -> usize
    requires { j < 1024 }
    ensures { result ≡ inside t.now j }
{
    if by_children(kind_at(t, j)) {
        j + 1
    } else {
        j + size_at(t, j)
    }
}

// One of the siblings from i up to e has effect.
fn has_effect(t: &[u8], strings: &[bool; 512], i: usize, e: usize) -> bool
    requires { Part t.now i e }
    ensures { result ≡ effect (is_text strings.now) (forest_of t.now i e) }
{
    let mut j = i;
    // Kept: the step is what inward reads at node j, which no range counts by.
    while j < e {
        if acts(t, strings, j) {
            return true;
        }
        j = inward(t, j);
    }
    false
}

fn idle(t: &[u8], strings: &[bool; 512], i: usize, sheet: &mut LentSheet<'_>)
    requires { Subtree t.now i × Stated t.now i }
    ensures { Added sheet.old sheet.new (idle_at strings.now (node_head t.now i) (forest_of t.now (i + 1) (i + size_at t.now i))) }
{
    let e = i + size_at(t, i);
    if kind_at(t, i) == Kind::Expression as usize
        && !has_effect(t, strings, i + 1, e)
        && let Some(j) = child_of(t, Role::Expression as usize, i + 1, e)
    {
        sheet.put_plainly(t, Code::NoEffect as u32, j);
    }
}

// The insides of an expression statement hold no statement.
fn next(t: &[u8], i: usize) -> usize
    requires { i < 1024 }
    ensures { result ≡ past_of 5 t.now i }
{
    if kind_at(t, i) == Kind::Expression as usize {
        i + size_at(t, i)
    } else {
        i + 1
    }
}

pub(crate) fn no_effect(t: &[u8], strings: &[bool; 512], n: usize, sheet: &mut LentSheet<'_>)
    requires { Checked t.now n }
    ensures { Added sheet.old sheet.new (effect_walk (is_text strings.now) (forest_of t.now 0 n)) }
{
    let mut i = 0;
    // Kept: the step is what next reads at node i, which no range counts by.
    while i < n {
        idle(t, strings, i, sheet);
        i = next(t, i);
    }
}
