// Which bodies end surely.
ghost use Rattle.std.specs.Prelude.{◌≡◌, eqb};
ghost use Rattle.tree.specs.Forest.{forest_of};
ghost use Rattle.tree.specs.code.Part.{Part};
ghost use Rattle.rules.specs.Flow.{ends};

use crate::last::last_of;
use fail::is_fail;
use tree::bytes::{kind_at, size_at};
use tree::kinds::{Kind, Role};

// The last of the siblings from i up to e that has the role ends surely.
pub(crate) fn final_return(t: &[u8], fail: usize, role: usize, i: usize, e: usize) -> bool
    requires { Part t.now i e }
    ensures { result ≡ ends (λ v. eqb v fail) role (forest_of t.now i e) }
{
    let Some(j) = last_of(t, role, i, e) else {
        return false;
    };
    let k = kind_at(t, j);
    let f = j + size_at(t, j);
    // Kept: a chain of ifs, since a kind is read as any number, and `Kind::If as usize` is no pattern of a match.
    if k == Kind::Expression as usize {
        is_fail(t, fail, j + 1, f)
    } else if k == Kind::Statements as usize {
        final_return(t, fail, Role::Item as usize, j + 1, f)
    } else if k == Kind::IfElse as usize {
        final_return(t, fail, Role::First as usize, j + 1, f)
            && final_return(t, fail, Role::Second as usize, j + 1, f)
    } else {
        k == Kind::Return as usize
    }
}
