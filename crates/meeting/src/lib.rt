// 02, §4: of nodes that share span and name, the one that the names walk meets first.
#![tactic(auto)]

ghost use Rattle.std.specs.Prelude.{◌≡◌, ◌<◌, ◌≤◌, get_or, IfSome};
ghost use Rattle.tree.specs.code.Part.{Part};
ghost use Rattle.meeting.specs.Words.{bucket_of, emptied as emptiedWords, link_words, linked as linkedWords};
ghost use Rattle.meeting.specs.Words.{touched, word_of, meet_words, first_words};

use scope::table::{same_spot, store, word_at};
use tree::bytes::{begin_at, end_at, value_at};
use tree::kinds::Role;
use walk::{Ask, Walk};

mod kinds;
mod walk;

const BUCKETS: usize = 1024;

// By bucket: 1 + its last place. By place: 1 + the place before it in its bucket; whether its node is met.
// Kept: parts of one list, of as many words as there are, as `first_words` in `first_met`'s contract has them.
const LAST: usize = 2048;

const BEFORE: usize = LAST + BUCKETS;

const MET: usize = 4096;

// Nodes that share span and name are in one bucket.
#[tactic(auto, unfolding(crate::specs::Words::bucket_of))]
fn bucket(t: &[u8], i: usize) -> usize
    ensures { (result ≡ bucket_of t.now i) × (result < 1024) }
{
    (31 * begin_at(t, i) + 7 * end_at(t, i) + value_at(t, i)) % BUCKETS
}

fn emptied(w: &mut [u16])
    ensures { w.new ≡ emptiedWords w.old 1024 }
{
    for k in LAST..BEFORE {
        store(w, k, 0);
    }
}

// Place k joins the bucket of its node, which is not met yet.
#[tactic(auto, unfolding(crate::specs::Words::link_words, crate::specs::Words::linked_at))]
fn link(t: &[u8], w: &mut [u16], k: usize)
    requires { k < 1024 }
    ensures { w.new ≡ link_words t.now w.old k }
{
    let b = LAST + bucket(t, word_at(w, k));
    store(w, BEFORE + k, word_at(w, b));
    store(w, b, k + 1);
    store(w, MET + k, 0);
}

#[tactic(auto, unfolding(crate::specs::Words::linked))]
fn linked(t: &[u8], w: &mut [u16], n: usize)
    requires { n ≤ 1024 }
    ensures { w.new ≡ linkedWords t.now w.old n }
{
    for k in 0..n {
        link(t, w, k);
    }
}

// Node i is met: it takes place k, if it has that span and name and is the first.
#[tactic(auto, unfolding(crate::specs::Words::touched))]
fn touch(t: &[u8], w: &mut [u16], k: usize, i: usize)
    requires { (k < 65536) × (i < 65536) }
    ensures { w.new ≡ touched t.now w.old k i }
{
    if word_at(w, MET + k) == 0 && same_spot(t, word_at(w, k), i) {
        store(w, k, i);
        store(w, MET + k, 1);
    }
}

// The place that word k tells, if any.
#[tactic(auto, unfolding(crate::specs::Words::word_of))]
fn place_at(w: &[u16], k: usize) -> Option<usize>
    ensures tells { word_of result ≡ get_or w.now k 0 }
    ensures low { IfSome result (λ p. p < 65535) }
{
    word_at(w, k).checked_sub(1)
}

// Node i is met: at most n places are in its bucket.
pub(crate) fn meet(t: &[u8], w: &mut [u16], n: usize, i: usize)
    requires { i < 65536 }
    ensures { w.new ≡ meet_words t.now n w.old i }
{
    let mut place = place_at(w, LAST + bucket(t, i));
    for _ in 0..n {
        let Some(k) = place else { return };
        touch(t, w, k, i);
        place = place_at(w, BEFORE + k);
    }
}

// Each of the first n words, a node, becomes the first of its span and name that the names walk meets; it stays where that meets none.
pub fn first_met(t: &[u8], nodes: usize, w: &mut [u16], n: usize)
    requires { Part t.now 0 nodes × (n ≤ 1024) }
    ensures { w.new ≡ first_words t.now nodes n w.old }
{
    emptied(w);
    linked(t, w, n);
    Walk { t, w, places: n }.visit(Ask::Of(Role::Item), 0, nodes);
}
