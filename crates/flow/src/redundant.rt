// The third walk: 10 for a bare return last in a def's body, 11 for a continue last in a for's.
ghost use Rattle.std.specs.Prelude.{◌≡◌, ◌&&◌, not, [], ◌∷◌, ◌++◌, ◌+◌, ◌≤◌};
ghost use Rattle.tree.specs.Bytes.{size_at};
ghost use Rattle.tree.specs.Forest.{node_head, forest_of};
ghost use Rattle.tree.specs.code.Part.{Part, Subtree};
ghost use Rattle.rules.specs.Record.{plainly, listed};
ghost use Rattle.rules.specs.Visit.{has};
ghost use Rattle.rules.specs.Flow.{tail, tail_part, redundant_part, redundant_walk, below_root};
ghost use Rattle.answer.specs.Page.{Added};

use crate::last::last_of;
use crate::returns::is_valued;
use answer::LentSheet;
use rules::Code;
use tree::bytes::{kind_at, size_at};
use tree::kinds::{Kind, Role};

// 11 where node i is a continue that ends a loop's body.
fn continues(t: &[u8], loops: bool, i: usize, sheet: &mut LentSheet<'_>)
    ensures { Added sheet.old sheet.new (listed loops (plainly 11 (node_head t.now i) ∷ []) []) }
{
    if loops {
        sheet.put_plainly(t, Code::RedundantContinue as u32, i);
    }
}

// 10 where node i, a return, is bare and ends a def's body.
fn bare(t: &[u8], loops: bool, i: usize, sheet: &mut LentSheet<'_>)
    requires { Subtree t.now i }
    ensures { Added sheet.old sheet.new (listed (not loops && not (has 4 (forest_of t.now (i + 1) (i + size_at t.now i)))) (plainly 10 (node_head t.now i) ∷ []) []) }
{
    if !loops && !is_valued(t, i) {
        sheet.put_plainly(t, Code::RedundantReturn as u32, i);
    }
}

// The statement at node i is last.
#[cycle(checking)]
fn check(t: &[u8], loops: bool, i: usize, sheet: &mut LentSheet<'_>)
    requires { Subtree t.now i }
    ensures { Added sheet.old sheet.new (tail_part (node_head t.now i).kind loops (node_head t.now i) (forest_of t.now (i + 1) (i + size_at t.now i)) (λ v. tail loops v (forest_of t.now (i + 1) (i + size_at t.now i)))) }
{
    let k = kind_at(t, i);
    let e = i + size_at(t, i);
    // Kept: a chain of ifs, since a kind is read as any number, and `Kind::If as usize` is no pattern of a match.
    if k == Kind::Continue as usize {
        continues(t, loops, i, sheet);
    } else if k == Kind::Return as usize {
        bare(t, loops, i, sheet);
    } else if k == Kind::Statements as usize {
        last(t, loops, Role::Item as usize, i + 1, e, sheet);
    } else if k == Kind::If as usize {
        last(t, loops, Role::First as usize, i + 1, e, sheet);
    } else if k == Kind::IfElse as usize {
        sides(t, loops, i + 1, e, sheet);
    }
}

#[cycle(checking)]
fn sides(t: &[u8], loops: bool, i: usize, e: usize, sheet: &mut LentSheet<'_>)
    requires { Part t.now i e × (i ≤ e) }
    ensures { Added sheet.old sheet.new (tail loops 1 (forest_of t.now i e) ++ tail loops 2 (forest_of t.now i e)) }
{
    last(t, loops, Role::First as usize, i, e, sheet);
    last(t, loops, Role::Second as usize, i, e, sheet);
}

// The last of the siblings from i up to e that has the role.
#[cycle(checking)]
fn last(t: &[u8], loops: bool, role: usize, i: usize, e: usize, sheet: &mut LentSheet<'_>)
    requires { Part t.now i e × (i ≤ e) }
    ensures { Added sheet.old sheet.new (tail loops role (forest_of t.now i e)) }
{
    if let Some(j) = last_of(t, role, i, e) {
        check(t, loops, j, sheet);
    }
}

// What node i's body ends with, where it is a for or a def.
fn body(t: &[u8], i: usize, sheet: &mut LentSheet<'_>)
    requires { Subtree t.now i }
    ensures { Added sheet.old sheet.new (redundant_part (node_head t.now i).kind (forest_of t.now (i + 1) (i + size_at t.now i))) }
{
    let k = kind_at(t, i);
    let loops = k == Kind::For as usize;
    if loops || k == Kind::Def as usize {
        last(
            t,
            loops,
            Role::First as usize,
            i + 1,
            i + size_at(t, i),
            sheet,
        );
    }
}

// Everything below the root is looked at.
pub(crate) fn redundant(t: &[u8], n: usize, sheet: &mut LentSheet<'_>)
    requires { Part t.now 0 n × (size_at t.now 0 ≡ n) }
    ensures { Added sheet.old sheet.new (redundant_walk (below_root (forest_of t.now 0 n))) }
{
    for i in 1..n {
        body(t, i, sheet);
    }
}
