// The children of a node: what they may be, refusal 7, and the first one of a role.
ghost use Rattle.std.specs.Prelude.{◌≡◌, ◌+◌, ◌<◌, ◌≤◌, true, get_or};
ghost use Rattle.tree.specs.Bytes.{size_at};
ghost use Rattle.tree.specs.code.Find.{first_child};
ghost use Rattle.tree.specs.code.Packed.{digit_of, Fills, class_list, least_list, most_list};
ghost use Rattle.tree.specs.Children.{class_of, in_class, slot_of, root_ok};
ghost use Rattle.tree.specs.code.Kids.{kids_from, kids_stand, of_role, kids_filled, paired, kids_for_first, kids_in_order, good7, bad7, Sized};
ghost use Rattle.tree.specs.declared.Refusal.TheVariants.{Children};
ghost use Rattle.tree.specs.code.Stages.{None6, Judges};

use crate::Refusal;
use crate::bytes::{kind_at, role_at, size_at};
use crate::kinds::{Kind, Role};
use crate::siblings::siblings;

// The classes of kinds; then those of a def's name, which is one kind, and of a place where nothing may stand.
#[derive(Clone, Copy)]
enum Class {
    Unknown = 0,
    Statement = 1,
    Expression = 2,
    Target = 3,
    Parameter = 4,
    Clause = 5,
    LoadedName = 6,
    Name = 7,
    Nothing = 9,
}

// Kept: ranges of numbers, since a pattern takes no `Kind::Break as usize`.
#[tactic(auto, unfolding(crate::specs::Children::class_of))]
fn class_of(k: usize) -> usize
    ensures { result ≡ class_of k }
{
    match k {
        1..=13 => Class::Statement as usize,
        20..=33 => Class::Expression as usize,
        40..=42 => Class::Target as usize,
        43 | 44 => Class::Parameter as usize,
        45 | 46 => Class::Clause as usize,
        47 => Class::LoadedName as usize,
        _ => Class::Unknown as usize,
    }
}

// The kinds and their children, a row for each kind. At role r stands the number of what may stand in that role: 0 nothing,
// 1 one statement, 2 any; 3 one expression, 4 at most one, 5 any, 6 three; 7 one target, 8 any; 9 any parameters; 10 some clauses;
// 11 a def's name; 12 any loaded names.
const ROWS: [[u8; 9]; 48] = [
    [0, 0, 0, 0, 0, 0, 0, 0, 0], // 0
    [0, 0, 0, 0, 0, 0, 0, 0, 0], // 1 break
    [0, 0, 0, 0, 0, 0, 0, 0, 0], // 2 continue
    [0, 0, 0, 0, 0, 0, 0, 0, 0], // 3 pass
    [0, 0, 0, 0, 4, 0, 0, 0, 0], // 4 return: at most one E4
    [0, 0, 0, 0, 3, 0, 0, 0, 0], // 5 expression: E4
    [0, 0, 0, 4, 3, 7, 0, 0, 0], // 6 assign: T5, at most one type E3, E4
    [0, 0, 0, 0, 3, 7, 0, 0, 0], // 7 assign-modify: T5, E4
    [2, 0, 0, 0, 0, 0, 0, 0, 0], // 8 statements: any S0
    [0, 1, 0, 0, 3, 0, 0, 0, 0], // 9 if: E4, S1
    [0, 1, 1, 0, 3, 0, 0, 0, 0], // 10 if-else: E4, S1, S2
    [0, 1, 0, 0, 3, 7, 0, 0, 0], // 11 for: T5, E4, S1
    [9, 1, 0, 4, 0, 0, 11, 0, 0], // 12 def: its name, role 6; any P0; at most one type E3; S1
    [12, 0, 0, 0, 0, 0, 0, 0, 0], // 13 load: any loaded name, role 0
    [0, 0, 0, 0, 0, 0, 0, 0, 0], // 14
    [0, 0, 0, 0, 0, 0, 0, 0, 0], // 15
    [0, 0, 0, 0, 0, 0, 0, 0, 0], // 16
    [0, 0, 0, 0, 0, 0, 0, 0, 0], // 17
    [0, 0, 0, 0, 0, 0, 0, 0, 0], // 18
    [0, 0, 0, 0, 0, 0, 0, 0, 0], // 19
    [0, 0, 0, 0, 0, 0, 0, 0, 0], // 20 identifier
    [0, 0, 0, 0, 0, 0, 0, 0, 0], // 21 literal
    [0, 0, 0, 0, 0, 0, 0, 0, 0], // 22 ellipsis
    [5, 0, 0, 0, 0, 0, 0, 3, 0], // 23 call: E7, any E0
    [9, 3, 0, 0, 0, 0, 0, 0, 0], // 24 lambda: any P0, E1
    [10, 0, 0, 0, 3, 0, 0, 0, 0], // 25 list comprehension: E4, clauses C0
    [10, 0, 0, 0, 3, 0, 0, 0, 3], // 26 dict comprehension: E8, E4, clauses C0
    [5, 0, 0, 0, 0, 0, 0, 0, 0], // 27 tuple: any E0
    [5, 0, 0, 0, 0, 0, 0, 0, 0], // 28 list: any E0
    [0, 0, 0, 0, 5, 0, 0, 0, 5], // 29 dict: E8 and E4 in pairs
    [6, 0, 0, 0, 0, 0, 0, 0, 0], // 30 conditional: three E0
    [0, 3, 3, 0, 0, 0, 0, 0, 0], // 31 equal: E1, E2
    [0, 3, 3, 0, 0, 0, 0, 0, 0], // 32 not equal: E1, E2
    [5, 0, 0, 0, 0, 0, 0, 0, 0], // 33 other: any E0
    [0, 0, 0, 0, 0, 0, 0, 0, 0], // 34
    [0, 0, 0, 0, 0, 0, 0, 0, 0], // 35
    [0, 0, 0, 0, 0, 0, 0, 0, 0], // 36
    [0, 0, 0, 0, 0, 0, 0, 0, 0], // 37
    [0, 0, 0, 0, 0, 0, 0, 0, 0], // 38
    [0, 0, 0, 0, 0, 0, 0, 0, 0], // 39
    [0, 0, 0, 0, 0, 0, 0, 0, 0], // 40 name
    [8, 0, 0, 0, 0, 0, 0, 0, 0], // 41 several: any T0
    [5, 0, 0, 0, 0, 0, 0, 0, 0], // 42 index or dot: any E0
    [5, 0, 0, 0, 0, 0, 0, 0, 0], // 43 named parameter: any E0
    [5, 0, 0, 0, 0, 0, 0, 0, 0], // 44 unnamed parameter: any E0
    [0, 0, 0, 0, 3, 7, 0, 0, 0], // 45 for clause: T5, E4
    [0, 0, 0, 0, 3, 0, 0, 0, 0], // 46 if clause: E4
    [0, 0, 0, 0, 0, 0, 0, 0, 0], // 47 loaded name
];

// What may stand in one role: of which class, how many at least and at most.
#[derive(Clone, Copy)]
struct Form {
    class: usize,
    least: usize,
    most: usize,
}

// What the numbers of ROWS stand for. No file has more than 1,024 nodes: that many are any number.
// Kept: a match and no constant table of forms: tried, and the table is made anew on the stack at each use; judging took 1.38 times as
// many instructions with it.
#[tactic(auto, unfolding(crate::specs::code::Packed::class_list, crate::specs::code::Packed::least_list, crate::specs::code::Packed::most_list))]
fn form_of(d: usize) -> Form
    requires { d < 13 }
    ensures class { result.class ≡ get_or class_list d 0 }
    ensures least { result.least ≡ get_or least_list d 0 }
    ensures most { result.most ≡ get_or most_list d 0 }
{
    let (class, least, most) = match d {
        1 => (Class::Statement as usize, 1, 1),
        2 => (Class::Statement as usize, 0, 1024),
        3 => (Class::Expression as usize, 1, 1),
        4 => (Class::Expression as usize, 0, 1),
        5 => (Class::Expression as usize, 0, 1024),
        6 => (Class::Expression as usize, 3, 3),
        7 => (Class::Target as usize, 1, 1),
        8 => (Class::Target as usize, 0, 1024),
        9 => (Class::Parameter as usize, 0, 1024),
        10 => (Class::Clause as usize, 1, 1024),
        11 => (Class::Name as usize, 1, 1),
        12 => (Class::LoadedName as usize, 0, 1024),
        _ => (Class::Nothing as usize, 0, 0),
    };
    Form { class, least, most }
}

// The number of what may stand in role r of kind k.
fn slot_number(k: usize, r: usize) -> usize
    ensures { (result ≡ digit_of k r) × (result < 13) }
{
    if k < 48 && r < 9 {
        usize::from(ROWS[k][r])
    } else {
        0
    }
}

fn slot_class(k: usize, r: usize) -> usize
    ensures { result ≡ (slot_of k r).class }
{
    form_of(slot_number(k, r)).class
}

fn stands(c: usize, k: usize) -> bool
    ensures { result ≡ in_class c k }
{
    if c == Class::Name as usize {
        k == Kind::Name as usize
    } else {
        class_of(k) == c
    }
}

// The children of a node: whole subtrees, from node `from` up to `end`.
#[derive(Clone, Copy)]
struct Kids<'a> {
    t: &'a [u8],
    from: usize,
    end: usize,
    ghost few: { end ≤ 1024 },
    ghost sized: { Sized t.now end },
}

impl Kids<'_> {
    fn all_stand(&self, k: usize) -> bool
        ensures { result ≡ kids_stand self.now.t.now k (kids_from self.now.t.now self.now.from self.now.end) }
    {
        for c in siblings(self.t, self.from, self.end) {
            if !stands(slot_class(k, role_at(self.t, c)), kind_at(self.t, c)) {
                return false;
            }
        }
        true
    }

    fn of_role(&self, r: usize) -> usize
        ensures { result ≡ of_role self.now.t.now r (kids_from self.now.t.now self.now.from self.now.end) }
    {
        let mut m = 0;
        for c in siblings(self.t, self.from, self.end) {
            if role_at(self.t, c) == r {
                m += 1;
            }
        }
        m
    }

    // Whether the children of role r are as many as d says, the number of what may stand there. Where that is nothing, no
    // child that stands has the role: there is none to count.
    fn role_filled(&self, d: usize, r: usize) -> bool
        requires { d < 13 }
        ensures { Fills self.now.t.now d r (kids_from self.now.t.now self.now.from self.now.end) result }
    {
        if d == 0 {
            return true;
        }
        let m = self.of_role(r);
        let form = form_of(d);
        form.least <= m && m <= form.most
    }

    fn all_filled(&self, k: usize) -> bool
        requires { kids_stand self.now.t.now k (kids_from self.now.t.now self.now.from self.now.end) ≡ true }
        ensures { result ≡ kids_filled 9 self.now.t.now k (kids_from self.now.t.now self.now.from self.now.end) }
    {
        for r in 0..9 {
            if !self.role_filled(slot_number(k, r), r) {
                return false;
            }
        }
        true
    }

    fn all_paired(&self) -> bool
        ensures { result ≡ paired self.now.t.now 8 (kids_from self.now.t.now self.now.from self.now.end) }
    {
        let (key, value) = (Role::Key as usize, Role::Expression as usize);
        let mut due = key;
        for c in siblings(self.t, self.from, self.end) {
            if role_at(self.t, c) != due {
                return false;
            }
            due = if due == key { value } else { key };
        }
        due == key
    }

    fn for_first(&self) -> bool
        ensures { result ≡ kids_for_first self.now.t.now (kids_from self.now.t.now self.now.from self.now.end) }
    {
        for c in siblings(self.t, self.from, self.end) {
            if role_at(self.t, c) == Role::Item as usize {
                return kind_at(self.t, c) == Kind::ForClause as usize;
            }
        }
        true
    }

    #[tactic(auto, unfolding(crate::specs::code::Kids::kids_in_order))]
    fn in_order(&self, k: usize) -> bool
        ensures { result ≡ kids_in_order self.now.t.now k (kids_from self.now.t.now self.now.from self.now.end) }
    {
        if k == Kind::Dict as usize {
            self.all_paired()
        } else if k == Kind::ListComprehension as usize || k == Kind::DictComprehension as usize {
            self.for_first()
        } else {
            true
        }
    }
}

#[tactic(auto, unfolding(crate::specs::code::Kids::good7, crate::specs::code::Kids::kids_of))]
fn kids_ok(t: &[u8], p: usize) -> bool
    requires { (p < 1024) × (p + size_at t.now p ≤ 1024) × Sized t.now (p + size_at t.now p) }
    ensures { result ≡ good7 t.now p }
{
    let k = kind_at(t, p);
    let kids = Kids {
        t,
        from: p + 1,
        end: p + size_at(t, p),
    };
    kids.all_stand(k) && kids.all_filled(k) && kids.in_order(k)
}

#[tactic(auto, unfolding(crate::specs::Children::root_ok))]
fn root_ok(t: &[u8], n: usize) -> bool
    ensures { result ≡ root_ok t.now n }
{
    size_at(t, 0) == n
        && class_of(kind_at(t, 0)) == Class::Statement as usize
        && role_at(t, 0) == Role::Item as usize
}

// 7: the first node whose children are wrong is refused, or the root that is no statement or not the whole file.
pub(crate) fn check_children(t: &[u8], n: usize, nv: usize) -> Result<(), Refusal>
    requires { (1 ≤ n) × (n ≤ 1024) × None6 t.now n nv }
    ensures { Judges Children n (bad7 t.now n) result }
{
    if !root_ok(t, n) {
        return Err(Refusal::Children(0));
    }
    for i in 0..n {
        if !kids_ok(t, i) {
            return Err(Refusal::Children(i));
        }
    }
    Ok(())
}

// The first of the siblings from node `from` up to `e` that has the role.
pub fn child_of(t: &[u8], role: usize, from: usize, e: usize) -> Option<usize>
    ensures { result ≡ first_child t.now role from e }
{
    for i in siblings(t, from, e) {
        if role_at(t, i) == role {
            return Some(i);
        }
    }
    None
}
