// A walk over siblings: each node once, and on by its size.
ghost use Rattle.std.specs.Prelude.{◌≡◌, ◌-◌};
ghost use Rattle.std.specs.Iterator.{at_most};
ghost use Rattle.tree.specs.code.Siblings.{goes};

use crate::bytes::size_at;

// The siblings from node `at` up to `end`. Bytes that are no tree are gone through too: every step goes on.
#[derive(Clone, Copy)]
pub struct SiblingWalk<'a> {
    pub t: &'a [u8],
    pub at: usize,
    pub end: usize,
}

pub fn siblings(t: &[u8], i: usize, e: usize) -> SiblingWalk<'_>
    ensures { (result.t.now ≡ t.now) × (result.at ≡ i) × (result.end ≡ e) }
{
    SiblingWalk { t, at: i, end: e }
}

impl Iterator for SiblingWalk<'_> {
    type Item = usize;

    ghost next_gives = { goes };

    ghost remaining = { λ s. at_most (s.end - s.at) };

    fn next(&mut self) -> Option<usize> {
        let here = self.at;
        if self.end <= here {
            return None;
        }
        let size = size_at(self.t, here);
        self.at = if size == 0 {
            self.end
        } else {
            here.saturating_add(size)
        };
        Some(here)
    }
}
