// The fourth walk: 12 for a load after anything but loads and string literals.
ghost use Rattle.std.specs.Prelude.{◌≡◌, List, Bool, true, ◌||◌, ◌+◌, ◌<◌, eqb};
ghost use Rattle.tree.specs.Bytes.{size_at};
ghost use Rattle.tree.specs.Forest.{node_head, forest_of};
ghost use Rattle.tree.specs.code.Part.{Part, Subtree};
ghost use Rattle.rules.specs.Flow.{string_stated, loads};
ghost use Rattle.answer.specs.Page.{Added};
ghost use Rattle.flow.specs.Walks.{is_text, load_at, into_of};

use answer::LentSheet;
use rules::Code;
use tree::bytes::{kind_at, size_at, value_at};
use tree::kinds::Kind;

pub(crate) fn is_string(strings: &[bool; 512], v: usize) -> bool
    ensures { result ≡ is_text strings.now v }
{
    v < strings.len() && strings[v]
}

// The first of the siblings from i up to e is a string literal.
fn is_text(t: &[u8], strings: &[bool; 512], i: usize, e: usize) -> bool
    requires { Part t.now i e }
    ensures { result ≡ string_stated (is_text strings.now) (forest_of t.now i e) }
{
    i < e && kind_at(t, i) == Kind::Literal as usize && is_string(strings, value_at(t, i))
}

// Loads are allowed after these where they are before: lists are flattened.
fn keeps(k: usize) -> bool
    ensures { result ≡ (eqb k 8 || eqb k 13) }
{
    k == Kind::Statements as usize || k == Kind::Load as usize
}

// Whether loads are allowed after the statement at node j.
fn allows(t: &[u8], strings: &[bool; 512], allowed: bool, j: usize) -> bool
    requires { Subtree t.now j }
    ensures { result ≡ (load_at strings.now allowed (node_head t.now j) (forest_of t.now (j + 1) (j + size_at t.now j))).may }
{
    let k = kind_at(t, j);
    allowed
        && (keeps(k)
            || k == Kind::Expression as usize && is_text(t, strings, j + 1, j + size_at(t, j)))
}

fn load(t: &[u8], allowed: bool, j: usize, sheet: &mut LentSheet<'_>)
    ensures { (strings : List Bool) → Added sheet.old sheet.new (load_at strings allowed (node_head t.now j) (forest_of t.now (j + 1) (j + size_at t.now j))).recs }
{
    if kind_at(t, j) == Kind::Load as usize && !allowed {
        sheet.put_plainly(t, Code::MisplacedLoad as u32, j);
    }
}

// Lists are flattened; the insides of any other statement are not looked at.
fn next(t: &[u8], j: usize) -> usize
    requires { j < 1024 }
    ensures { result ≡ into_of 8 t.now j }
{
    if kind_at(t, j) == Kind::Statements as usize {
        j + 1
    } else {
        j + size_at(t, j)
    }
}

pub(crate) fn misplaced_load(t: &[u8], strings: &[bool; 512], n: usize, sheet: &mut LentSheet<'_>)
    requires { Part t.now 0 n }
    ensures { Added sheet.old sheet.new (loads (is_text strings.now) true (forest_of t.now 0 n)).recs }
{
    let mut allowed = true;
    let mut j = 0;
    // Kept: the step is what next reads at node j, which no range counts by.
    while j < n {
        load(t, allowed, j, sheet);
        allowed = allows(t, strings, allowed, j);
        j = next(t, j);
    }
}
