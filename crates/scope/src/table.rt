// The words of the work room: lists of node numbers, and searches in them.
ghost use Rattle.std.specs.Prelude.{◌≡◌, ◌+◌, ◌<◌, ◌≤◌, IfSome, eqb, get_or, set};
ghost use Rattle.tree.specs.Bytes.{value_at};
ghost use Rattle.tree.specs.Forest.{node_spot};
ghost use Rattle.rules.specs.Names.{same, unused};
ghost use Rattle.rules.specs.code.Marks.{same_setting};
ghost use Rattle.scope.specs.State.{sort_of};
ghost use Rattle.scope.specs.Words.{setting_at, alike_at, found_in, is_in, join_words, join_end, warn_words, warn_count};

use rules::Code;
use tree::bytes::{begin_at, end_at, kind_at, value_at};
use tree::kinds::Kind;

// Kept: the caller lends one slice of words (set, used, leave), so the tables are rows of it, by these offsets.
// By place, from 0 on: the node of a setting. From USED and BASE on: whether it is used, and the first place of its scope.
pub(crate) const USED: usize = 1024;

pub(crate) const BASE: usize = 2048;
// Warnings: the node, and the code.
pub const WARN: usize = 3072;

pub const CODE: usize = 4096;
// Can't-set and unbound uses of all open scopes, one scope's after another's.
pub(crate) const CANT: usize = 5120;

pub(crate) const LOOSE: usize = 6144;

pub(crate) const ENDS: usize = 13312;

// The places, or words, from `from` up to `to`.
#[derive(Clone, Copy)]
pub(crate) struct Places {
    pub(crate) from: usize,
    pub(crate) to: usize,
    ghost in_order: { from ≤ to },
    ghost in_words: { to ≤ 13312 },
}

// How two nodes are alike: by name, by name and span, or by these and the sort of setting.
// Kept: find_in and alike_at of specs/ take it, so it is no closure.
#[derive(Clone, Copy, Debug, PartialEq, Eq)]
pub enum Like {
    Name,
    Spot,
    Setting,
}

// A word; 0 past the end.
// Kept: its contract gives that 0, which meeting and names cite.
pub fn word_at(w: &[u16], k: usize) -> usize
    ensures { (result ≡ get_or w.now k 0) × (result < 65536) }
{
    w.get(k).map_or(0, |v| usize::from(*v))
}

// A word is set, if it is there.
// Kept: get_mut's contract tells nothing of the slice after the write through it, so the proof did not close.
pub fn store(w: &mut [u16], k: usize, v: usize)
    requires { v < 65536 }
    ensures { w.new ≡ set w.old k v }
{
    if k < w.len() {
        w[k] = v as u16;
    }
}

// The code of a setting of this kind that is not used.
pub(crate) fn code_of(k: usize) -> usize
    ensures { result ≡ unused (sort_of k) }
{
    if k == Kind::LoadedName as usize {
        Code::UnusedLoad as usize
    } else if k == Kind::NamedParameter as usize {
        Code::UnusedArgument as usize
    } else {
        Code::UnusedAssign as usize
    }
}

pub(crate) fn same_name(t: &[u8], a: usize, b: usize) -> bool
    ensures { result ≡ eqb (value_at t.now a) (value_at t.now b) }
{
    value_at(t, a) == value_at(t, b)
}

pub fn same_spot(t: &[u8], a: usize, b: usize) -> bool
    ensures { result ≡ same (node_spot t.now a) (node_spot t.now b) }
{
    value_at(t, a) == value_at(t, b)
        && begin_at(t, a) == begin_at(t, b)
        && end_at(t, a) == end_at(t, b)
}

pub(crate) fn same_setting(t: &[u8], a: usize, b: usize) -> bool
    ensures { result ≡ same_setting (setting_at t.now a) (setting_at t.now b) }
{
    code_of(kind_at(t, a)) == code_of(kind_at(t, b)) && same_spot(t, a, b)
}

fn alike(t: &[u8], how: Like, a: usize, b: usize) -> bool
    ensures { result ≡ alike_at t.now how a b }
{
    match how {
        Like::Name => same_name(t, a, b),
        Like::Spot => same_spot(t, a, b),
        Like::Setting => same_setting(t, a, b),
    }
}

// The first of the places of a node that is like node i.
pub(crate) fn find(t: &[u8], w: &[u16], how: Like, at: Places, i: usize) -> Option<usize>
    ensures place { result ≡ found_in t.now w.now how at.from at.to i }
    ensures within { IfSome result (λ p. p < at.to) }
{
    (at.from..at.to).find(|j| alike(t, how, i, word_at(w, *j)))
}

// Whether there is one.
pub(crate) fn has(t: &[u8], w: &[u16], how: Like, at: Places, i: usize) -> bool
    ensures { result ≡ is_in t.now w.now how at.from at.to i }
{
    find(t, w, how, at, i).is_some()
}

// Node i joins the list at these places, unless its pair is there or the list has come to its end: where it ends after that.
pub(crate) fn join_list(t: &[u8], w: &mut [u16], at: Places, end: usize, i: usize) -> usize
    requires { i < 65536 }
    ensures { (result ≡ join_end t.now w.old at.from at.to end i) × (w.new ≡ join_words t.now w.old at.from at.to end i) × (at.to ≤ result) × (result ≤ at.to + 1) }
{
    if has(t, w, Like::Spot, at, i) || end <= at.to {
        return at.to;
    }
    store(w, at.to, i);
    at.to + 1
}

// One more warning, unless its pair is warned: the new count.
// Kept: the code is stored as a word, and warn_words of specs/ takes its number.
pub(crate) fn warn(t: &[u8], w: &mut [u16], n: usize, code: usize, i: usize) -> usize
    requires { (n ≤ 1024) × (code < 65536) × (i < 65536) }
    ensures { (result ≡ warn_count t.now w.old n i) × (w.new ≡ warn_words t.now w.old n code i) × (result ≤ 1024) }
{
    let warned = Places {
        from: WARN,
        to: WARN + n,
    };
    let end = join_list(t, w, warned, CODE, i);
    if warned.to < end {
        store(w, CODE + n, code);
    }
    end - WARN
}
