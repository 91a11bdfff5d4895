// The nodes one by one: their parents, refusal 6, their depth, refusal 8; and the globals, refusal 9.
ghost use Rattle.std.specs.Prelude.{◌≡◌, ◌<◌, ◌≤◌};
ghost use Rattle.tree.specs.Nodes.{parent_of, limit_of, known, too_deep, holds_name};
ghost use Rattle.tree.specs.Values.{offset};
ghost use Rattle.tree.specs.declared.Refusal.TheVariants.{Node, Depth, Global};
ghost use Rattle.tree.specs.code.Stages.{value_fits, good6, bad6, bad9, names_of, None5, Parents, Judges};

use crate::bytes::{begin_at, end_at, kind_at, last_at, size_at, u16_at, value_at};
use crate::kinds::Kind;
use crate::{Facts, Refusal};

// The value number of a node that has no value.
const NO_VALUE: usize = 65535;

// A file whose values are in form, what it says of itself, and the parents of its nodes.
#[derive(Clone, Copy)]
pub(crate) struct File<'a> {
    pub(crate) t: &'a [u8],
    pub(crate) says: Facts,
    pub(crate) parents: &'a [u16; 1024],
    ghost some_nodes: { 1 ≤ says.nodes },
    ghost few_nodes: { says.nodes ≤ 1024 },
    ghost names: { says.names ≡ names_of t.now says.nodes says.values },
    ghost rest: { says.rest ≡ offset t.now says.nodes says.values },
    ghost early: { says.rest < 34000000 },
    ghost none5: { None5 t.now says.nodes says.values },
    ghost each_parent: { Parents t.now says.nodes parents.now },
}

// The nearest node before i that reaches past it.
// Kept: a `while`, since it goes from parent to parent, by what the table gives, and not by ones.
fn parent_from(t: &[u8], par: &[u16; 1024], i: usize) -> usize
    requires { (i < 1024) × Parents t.now i par.now }
    ensures { (result ≡ parent_of t.now i) × (result ≤ i) }
{
    let mut p = i.saturating_sub(1);
    while 0 < p && p + size_at(t, p) <= i {
        p = usize::from(par[p]);
    }
    p
}

pub(crate) fn parents(t: &[u8], n: usize) -> [u16; 1024]
    requires { n ≤ 1024 }
    ensures { Parents t.now n result }
{
    let mut par = [0u16; 1024];
    for i in 0..n {
        par[i] = parent_from(t, &par, i) as u16;
    }
    par
}

// Kept: ranges of numbers, since a pattern takes no `Kind::Break as usize`.
#[tactic(auto, unfolding(crate::specs::Nodes::known))]
fn is_known(k: usize) -> bool
    ensures { result ≡ known k }
{
    matches!(k, 1..=13 | 20..=33 | 40..=47)
}

fn has_name(k: usize) -> bool
    ensures { result ≡ holds_name k }
{
    k == Kind::Identifier as usize
        || k == Kind::Name as usize
        || k == Kind::NamedParameter as usize
        || k == Kind::LoadedName as usize
}

impl File<'_> {
    #[tactic(auto, unfolding(crate::specs::Nodes::limit_of))]
    fn limit_at(&self, i: usize) -> usize
        requires { i < self.now.says.nodes }
        ensures { result ≡ limit_of self.now.t.now self.now.says.nodes i }
    {
        if i == 0 || size_at(self.t, 0) <= i {
            return self.says.nodes;
        }
        let p = usize::from(self.parents[i]);
        p + size_at(self.t, p)
    }

    #[tactic(auto, using(crate::proofs::Names::literal_test, crate::proofs::Names::name_test), unfolding(crate::specs::code::Stages::value_fits))]
    fn value_fits(&self, k: usize, v: usize) -> bool
        ensures { result ≡ value_fits self.now.t.now self.now.says.nodes self.now.says.values k v }
    {
        if k == Kind::Literal as usize {
            self.says.names <= v && v < self.says.values
        } else if has_name(k) {
            v < self.says.names
        } else {
            v == NO_VALUE
        }
    }

    #[tactic(auto, unfolding(crate::specs::code::Stages::good6))]
    fn node_ok(&self, i: usize) -> bool
        requires { i < self.now.says.nodes }
        ensures { result ≡ good6 self.now.t.now self.now.says.nodes self.now.says.values i }
    {
        let k = kind_at(self.t, i);
        let s = size_at(self.t, i);
        is_known(k)
            && begin_at(self.t, i) <= end_at(self.t, i)
            && last_at(self.t, i) == 0
            && 1 <= s
            && i + s <= self.limit_at(i)
            && self.value_fits(k, value_at(self.t, i))
    }

    // 6: the first node that is wrong by itself or ends behind its parent is refused.
    pub(crate) fn check_nodes(&self) -> Result<(), Refusal>
        ensures { Judges Node self.now.says.nodes (bad6 self.now.t.now self.now.says.nodes self.now.says.values) result }
    {
        for i in 0..self.says.nodes {
            if !self.node_ok(i) {
                return Err(Refusal::Node(i));
            }
        }
        Ok(())
    }

    // 8: the first node that is deeper than 48 is refused.
    pub(crate) fn check_depths(&self) -> Result<(), Refusal>
        ensures { Judges Depth self.now.says.nodes (too_deep self.now.t.now) result }
    {
        let mut depth = [1u16; 1024];
        for i in 1..self.says.nodes {
            let d = depth[usize::from(self.parents[i])] + 1;
            if 48 < d {
                return Err(Refusal::Depth(i));
            }
            depth[i] = d;
        }
        Ok(())
    }

    // 9: the first global that is no name or not above the one before it is refused.
    pub(crate) fn check_globals(&self, count: usize) -> Result<(), Refusal>
        requires { count ≤ 512 }
        ensures { Judges Global count (bad9 self.now.t.now self.now.says.nodes self.now.says.values) result }
    {
        let mut before = 0;
        for i in 0..count {
            let x = u16_at(self.t, self.says.rest + 2 * i);
            if self.says.names <= x || 0 < i && x <= before {
                return Err(Refusal::Global(i));
            }
            before = x;
        }
        Ok(())
    }
}
