// 15: a name that is assigned twice at the top level.
ghost use Rattle.std.specs.Prelude.{◌≡◌, [], ◌∷◌, ◌&&◌, ◌||◌, ◌+◌, ◌<◌, ◌≤◌, None, eqb, replicate};
ghost use Rattle.tree.specs.Bytes.{kind_at, size_at, value_at, pick};
ghost use Rattle.tree.specs.Forest.{node_head, forest_of};
ghost use Rattle.tree.specs.code.Part.{Part, Subtree};
ghost use Rattle.rules.specs.Incompatible.{again, repeated, defined_names, deeds, repeats, defines, free};
ghost use Rattle.answer.specs.Page.{Added};
ghost use Rattle.incompatible.specs.Ground.{Low, inside};
ghost use Rattle.incompatible.specs.Ledger.{named_one, below_one, is_several, goes_in, top_of, deeds_one, top_assign, Does, SelfSet};

use answer::{LentSheet, Note, Place};
use rules::{Allowance, Code};
use tree::bytes::{kind_at, role_at, size_at, value_at};
use tree::children::child_of;
use tree::kinds::{Kind, Role};
use tree::siblings::siblings;

// How a name was first defined: at which node, and whether x = x was already free.
#[derive(Clone, Copy)]
struct Definition {
    node: u16,
    exported: bool,
}

// How each name was first defined, by value number, and how often x = x is free.
#[derive(Drop)]
struct Defined {
    names: [Option<Definition>; 512],
    allowed: Allowance,
}

fn put_again(t: &[u8], old: usize, i: usize, sheet: &mut LentSheet<'_>)
    ensures { Added sheet.old sheet.new (again (node_head t.now old) (node_head t.now i) ∷ []) }
{
    sheet.put(
        t,
        Note {
            code: Code::DuplicateTopLevelAssign as u32,
            at: i,
            value: Place::Node(i),
            second: Place::Node(old),
            third: Place::Nowhere,
        },
    );
}

fn binds(kind: usize) -> bool
    ensures { result ≡ (eqb kind 40 || (eqb kind 43 || eqb kind 47)) }
{
    kind == Kind::Name as usize
        || kind == Kind::NamedParameter as usize
        || kind == Kind::LoadedName as usize
}

// Below several: role 0 only.
fn below_next(t: &[u8], j: usize) -> usize
    requires { j < 1024 }
    ensures { result ≡ pick (is_several (node_head t.now j)) (j + 1) (j + size_at t.now j) }
{
    if role_at(t, j) == Role::Item as usize && kind_at(t, j) == Kind::Several as usize {
        j + 1
    } else {
        j + size_at(t, j)
    }
}

// The target of x = x: a name, and the value the identifier of that name.
fn self_set(t: &[u8], i: usize, e: usize) -> Option<usize>
    requires { Part t.now i e × (i ≤ e) }
    ensures { SelfSet t.now i e result }
{
    let x = child_of(t, Role::Target as usize, i, e)?;
    let y = child_of(t, Role::Expression as usize, i, e)?;
    if kind_at(t, x) == Kind::Name as usize
        && kind_at(t, y) == Kind::Identifier as usize
        && value_at(t, x) == value_at(t, y)
    {
        Some(x)
    } else {
        None
    }
}

// Lists, if, if-else and for are gone into; the insides of any other node are not.
fn is_gone_into(kind: usize) -> bool
    ensures { result ≡ goes_in (top_of kind) }
{
    (Kind::Statements as usize..=Kind::For as usize).contains(&kind)
}

fn next(t: &[u8], i: usize) -> usize
    requires { i < 1024 }
    ensures { result ≡ pick (goes_in (top_of (kind_at t.now i))) (i + 1) (i + size_at t.now i) }
{
    if is_gone_into(kind_at(t, i)) {
        i + 1
    } else {
        i + size_at(t, i)
    }
}

impl Defined {
    fn new(allowed: Allowance) -> Defined
        ensures { (result.names ≡ replicate 512 None) × (result.allowed ≡ allowed) }
    {
        Defined {
            names: [None; 512],
            allowed,
        }
    }

    // x = x is free where the first definition of x is a load, as often as is allowed.
    fn may_repeat(&self, t: &[u8], first: Definition) -> bool
        ensures { result ≡ (eqb (kind_at t.now first.node) 47 && free self.now.allowed first.exported) }
    {
        kind_at(t, usize::from(first.node)) == Kind::LoadedName as usize
            && self.allowed.free(first.exported)
    }

    // The name at node i is defined, or defined again.
    fn ident(&mut self, t: &[u8], i: usize, sheet: &mut LentSheet<'_>)
        requires { (value_at t.now i < 512) × (i < 1024) }
        ensures { Does t.now self.old sheet.old (defines (eqb (kind_at t.now i) 47) (node_head t.now i) ∷ []) self.new sheet.new }
    {
        let v = value_at(t, i);
        match self.names[v] {
            None => {
                self.names[v] = Some(Definition {
                    node: i as u16,
                    exported: false,
                });
            }
            Some(first) => put_again(t, usize::from(first.node), i, sheet),
        }
    }

    fn repeat(&mut self, t: &[u8], x: usize, sheet: &mut LentSheet<'_>)
        requires { (value_at t.now x < 512) × (x < 1024) × (kind_at t.now x ≡ 40) }
        ensures { Does t.now self.old sheet.old (repeats (node_head t.now x) ∷ []) self.new sheet.new }
    {
        let v = value_at(t, x);
        match self.names[v] {
            Some(first) if self.may_repeat(t, first) => {
                self.names[v] = Some(Definition {
                    exported: true,
                    ..first
                });
            }
            _ => self.ident(t, x, sheet),
        }
    }

    // Below several: role 0 only.
    fn below_at(&mut self, t: &[u8], j: usize, sheet: &mut LentSheet<'_>)
        requires { Low t.now (j + 1) × (j < 1024) }
        ensures { Does t.now self.old sheet.old (below_one (node_head t.now j)) self.new sheet.new }
    {
        if role_at(t, j) == Role::Item as usize && binds(kind_at(t, j)) {
            self.ident(t, j, sheet);
        }
    }

    fn below(&mut self, t: &[u8], i: usize, e: usize, sheet: &mut LentSheet<'_>)
        requires { Part t.now i e × Low t.now e }
        ensures { Does t.now self.old sheet.old (defined_names 0 (forest_of t.now i e)) self.new sheet.new }
    {
        let mut j = i;
        // Kept: where the walk goes on is read at j, and no range steps so.
        while j < e {
            self.below_at(t, j, sheet);
            j = below_next(t, j);
        }
    }

    fn lvalue(&mut self, t: &[u8], role: usize, j: usize, sheet: &mut LentSheet<'_>)
        requires { Subtree t.now j × Low t.now (j + size_at t.now j) }
        ensures { Does t.now self.old sheet.old (named_one role (node_head t.now j) (inside t.now j)) self.new sheet.new }
    {
        if role_at(t, j) != role {
            return;
        }
        let kind = kind_at(t, j);
        if kind == Kind::Several as usize {
            self.below(t, j + 1, j + size_at(t, j), sheet);
        } else if binds(kind) {
            self.ident(t, j, sheet);
        }
    }

    // The names of a role among the siblings from i up to e, also those of several.
    fn visit_lvalue(&mut self, t: &[u8], role: usize, i: usize, e: usize, sheet: &mut LentSheet<'_>)
        requires { Part t.now i e × Low t.now e }
        ensures { Does t.now self.old sheet.old (defined_names role (forest_of t.now i e)) self.new sheet.new }
    {
        for j in siblings(t, i, e) {
            self.lvalue(t, role, j, sheet);
        }
    }

    fn assign(&mut self, t: &[u8], i: usize, e: usize, sheet: &mut LentSheet<'_>)
        requires { Part t.now i e × (i ≤ e) × Low t.now e }
        ensures { Does t.now self.old sheet.old (top_assign (forest_of t.now i e)) self.new sheet.new }
    {
        match self_set(t, i, e) {
            Some(x) => self.repeat(t, x, sheet),
            None => self.visit_lvalue(t, Role::Target as usize, i, e, sheet),
        }
    }

    fn stmt(&mut self, t: &[u8], i: usize, sheet: &mut LentSheet<'_>)
        requires { Subtree t.now i × Low t.now (i + size_at t.now i) }
        ensures { Does t.now self.old sheet.old (deeds_one (node_head t.now i) (inside t.now i)) self.new sheet.new }
    {
        let kind = kind_at(t, i);
        let e = i + size_at(t, i);
        if kind == Kind::Assign as usize {
            self.assign(t, i + 1, e, sheet);
        } else if kind == Kind::AssignModify as usize {
            self.visit_lvalue(t, Role::Target as usize, i + 1, e, sheet);
        } else if kind == Kind::Def as usize {
            self.visit_lvalue(t, Role::Name as usize, i + 1, e, sheet);
        } else if kind == Kind::Load as usize {
            self.visit_lvalue(t, Role::Item as usize, i + 1, e, sheet);
        }
    }

    // 15: every statement of the top level, under lists, if, if-else and for too.
    fn stmts(&mut self, t: &[u8], n: usize, sheet: &mut LentSheet<'_>)
        requires { Part t.now 0 n × Low t.now n }
        ensures { Does t.now self.old sheet.old (deeds (forest_of t.now 0 n)) self.new sheet.new }
    {
        let mut i = 0;
        // Kept: where the walk goes on is read at i, and no range steps so.
        while i < n {
            self.stmt(t, i, sheet);
            i = next(t, i);
        }
    }
}

pub(crate) fn duplicate_top_level_assignment(
    t: &[u8],
    allowed: Allowance,
    n: usize,
    sheet: &mut LentSheet<'_>,
)
    requires { Part t.now 0 n × Low t.now n }
    ensures { Added sheet.old sheet.new (repeated allowed (deeds (forest_of t.now 0 n)) [] []) }
{
    let mut defined = Defined::new(allowed);
    defined.stmts(t, n, sheet);
}
