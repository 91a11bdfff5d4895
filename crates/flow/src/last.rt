// The last of some siblings.
ghost use Rattle.tree.specs.code.Part.{Part};
ghost use Rattle.flow.specs.Returns.{Last};

use tree::bytes::role_at;
use tree::siblings::siblings;

// The last of the siblings from node i up to e that has the role.
pub(crate) fn last_of(t: &[u8], role: usize, i: usize, e: usize) -> Option<usize>
    requires { Part t.now i e }
    ensures { Last t.now role i e result }
{
    let mut last = None;
    for j in siblings(t, i, e) {
        if role_at(t, j) == role {
            last = Some(j);
        }
    }
    last
}
