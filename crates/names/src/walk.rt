// The walk: statements, branches, loops, expressions. d: how many for statements enclose the place.
// A scope is a kilobyte and the walk recurs: where it spares a frame one, a call's result goes where its argument was.
// The hints on inlining keep its frames small, as include/yudronkha.h promises who calls the library (docs/SPEED.md, "Stack").
ghost use Rattle.std.specs.Prelude.{◌≡◌, ℕ, ◌+◌, ◌<◌, ◌≤◌, eqb};
ghost use Rattle.tree.specs.Bytes.{pick, kind_at, role_at, size_at};
ghost use Rattle.tree.specs.Forest.{node_head};
ghost use Rattle.tree.specs.code.Part.{Part};
ghost use Rattle.rules.specs.Order.{◌⨟◌, skip, of_role, use_of, set_of, branch, scope};
ghost use Rattle.scope.specs.State.{sort_of, Fits};
ghost use Rattle.names.specs.Walk.{Goes, Turns, Node, want_of, used_by, number, first_clause, wanted_of, names_of, visit_of, down_of, node_of, node_bind, node_use, name_node, clauses_of, clause_of, over_of, bound_of};

use fail::is_fail;
use scope::{Abort, Scope};
use tree::bytes::{kind_at, role_at, size_at};
use tree::children::child_of;
use tree::kinds::{Kind, Role};
use tree::siblings::siblings;

// How deep a for may lie in others and still go two rounds.
const TWICE: usize = 5;

// Which children are visited.
#[derive(Clone, Copy, Debug, PartialEq, Eq)]
pub enum Wanted {
    All,
    Of(Role),
}

impl Wanted {
    // Node c is one of them.
    fn has(self, t: &[u8], c: usize) -> bool
        ensures { result ≡ wanted_of t.now self c }
    {
        match self {
            Wanted::All => true,
            Wanted::Of(role) => role as usize == role_at(t, c),
        }
    }
}

// What becomes of the names that are bound.
#[derive(Clone, Copy, Debug, PartialEq, Eq)]
enum Binding {
    Sets,
    Uses,
}

// What the walk goes through: a file, and the number of the name fail.
// Kept: w and s go beside it: with a `&mut` in it, each function below would promise too that t, fail and the reference stay.
// Kept: fail is a number: where the file has no such name it is 65536, which no value's number equals, so nothing asks whether it is there.
#[derive(Clone, Copy)]
pub struct Walk<'a> {
    pub t: &'a [u8],
    pub fail: usize,
}

impl Walk<'_> {
    // The wanted nodes from i up to e.
    #[cycle(walking)]
    #[inline(never)]
    pub fn visit(
        &self,
        i: usize,
        e: usize,
        wanted: Wanted,
        d: usize,
        w: &mut [u16],
        mut s: Scope,
    ) -> Scope
        requires { Part self.now.t.now i e × (d ≤ i) × Fits w.old s }
        ensures { Goes self.now.t.now d (visit_of self.now.t.now self.now.fail (want_of wanted) i e) w.old s w.new result }
    {
        for c in siblings(self.t, i, e) {
            s = self.step(c, wanted, d, w, s);
        }
        s
    }

    // Node c, where it is wanted.
    #[cycle(walking)]
    #[inline(always)]
    fn step(&self, c: usize, wanted: Wanted, d: usize, w: &mut [u16], s: Scope) -> Scope
        requires { Node self.now.t.now c d × (d ≤ c) × Fits w.old s }
        ensures { Goes self.now.t.now d (pick (wanted_of self.now.t.now wanted c) (node_of self.now.t.now self.now.fail c) skip) w.old s w.new result }
    {
        if wanted.has(self.t, c) {
            return self.one(c, d, w, s);
        }
        s
    }

    // The wanted children of node c.
    #[cycle(walking)]
    #[inline(always)]
    fn down(&self, c: usize, wanted: Wanted, d: usize, w: &mut [u16], s: Scope) -> Scope
        requires { Node self.now.t.now c d × Fits w.old s }
        ensures { Goes self.now.t.now d (down_of self.now.t.now self.now.fail (want_of wanted) c) w.old s w.new result }
    {
        let e = c + size_at(self.t, c);
        self.visit(c + 1, e, wanted, d, w, s)
    }

    // One node.
    #[cycle(walking)]
    #[inline(never)]
    fn one(&self, c: usize, d: usize, w: &mut [u16], s: Scope) -> Scope
        requires { Node self.now.t.now c d × (d ≤ c) × Fits w.old s }
        ensures { Goes self.now.t.now d (node_of self.now.t.now self.now.fail c) w.old s w.new result }
    {
        let k = kind_at(self.t, c);
        // Kept: returns: a chain of else says no more, and tried, its frame is 3,288 bytes for 2,200, a scope for each arm.
        if k < Kind::Statements as usize {
            return self.stmt(c, k, d, w, s);
        }
        if k <= Kind::Load as usize {
            return self.block(c, k, d, w, s);
        }
        self.expr(c, k, d, w, s)
    }

    // Statements with no statement below: break, continue and pass too.
    #[cycle(walking)]
    #[inline(never)]
    fn stmt(&self, c: usize, k: usize, d: usize, w: &mut [u16], s: Scope) -> Scope
        requires { (k ≡ kind_at self.now.t.now c) × (k < 8) × Node self.now.t.now c d × Fits w.old s }
        ensures { Goes self.now.t.now d (node_of self.now.t.now self.now.fail c) w.old s w.new result }
    {
        // Kept: returns: a chain of else says no more, and tried, its frame is 8,744 bytes for 4,408, a scope for each arm.
        if k == Kind::Return as usize {
            return self.ret(c, d, w, s);
        }
        if k == Kind::Expression as usize {
            return self.eval(c, d, w, s);
        }
        if k == Kind::Assign as usize {
            return self.gets(c, d, w, s);
        }
        if k == Kind::AssignModify as usize {
            return self.modify(c, d, w, s);
        }
        if k == Kind::Break as usize || k == Kind::Continue as usize {
            return s.stop(Abort::Loop);
        }
        self.down(c, Wanted::All, d, w, s)
    }

    #[cycle(walking)]
    #[inline(never)]
    fn ret(&self, c: usize, d: usize, w: &mut [u16], mut s: Scope) -> Scope
        requires { (kind_at self.now.t.now c ≡ 4) × Node self.now.t.now c d × Fits w.old s }
        ensures { Goes self.now.t.now d (node_of self.now.t.now self.now.fail c) w.old s w.new result }
    {
        s = self.down(c, Wanted::Of(Role::Expression), d, w, s);
        s.stop(Abort::Function)
    }

    // A statement that is an expression ends the function if it calls fail.
    #[cycle(walking)]
    #[inline(never)]
    fn eval(&self, c: usize, d: usize, w: &mut [u16], mut s: Scope) -> Scope
        requires { (kind_at self.now.t.now c ≡ 5) × Node self.now.t.now c d × Fits w.old s }
        ensures { Goes self.now.t.now d (node_of self.now.t.now self.now.fail c) w.old s w.new result }
    {
        s = self.down(c, Wanted::Of(Role::Expression), d, w, s);
        let e = c + size_at(self.t, c);
        if is_fail(self.t, self.fail, c + 1, e) {
            return s.stop(Abort::Function);
        }
        s
    }

    #[cycle(walking)]
    #[inline(never)]
    fn gets(&self, c: usize, d: usize, w: &mut [u16], mut s: Scope) -> Scope
        requires { (kind_at self.now.t.now c ≡ 6) × Node self.now.t.now c d × Fits w.old s }
        ensures { Goes self.now.t.now d (node_of self.now.t.now self.now.fail c) w.old s w.new result }
    {
        s = self.down(c, Wanted::Of(Role::Type), d, w, s);
        s = self.down(c, Wanted::Of(Role::Expression), d, w, s);
        self.assign(c, d, w, s)
    }

    #[cycle(walking)]
    #[inline(never)]
    fn modify(&self, c: usize, d: usize, w: &mut [u16], mut s: Scope) -> Scope
        requires { (kind_at self.now.t.now c ≡ 7) × Node self.now.t.now c d × Fits w.old s }
        ensures { Goes self.now.t.now d (node_of self.now.t.now self.now.fail c) w.old s w.new result }
    {
        s = self.down(c, Wanted::Of(Role::Expression), d, w, s);
        s = self.down(c, Wanted::Of(Role::Target), d, w, s);
        s = self.bind(c, Role::Target, Binding::Uses, w, s);
        self.assign(c, d, w, s)
    }

    // The target of node c: its expressions, then its names.
    #[cycle(walking)]
    #[inline(never)]
    fn assign(&self, c: usize, d: usize, w: &mut [u16], mut s: Scope) -> Scope
        requires { Node self.now.t.now c d × Fits w.old s }
        ensures { Goes self.now.t.now d (down_of self.now.t.now self.now.fail (of_role 5) c ⨟ node_bind self.now.t.now 5 c) w.old s w.new result }
    {
        s = self.down(c, Wanted::Of(Role::Target), d, w, s);
        // Kept: s again and then s: tried with the call itself at the end, the frame is 4,408 bytes for 3,320.
        s = self.bind(c, Role::Target, Binding::Sets, w, s);
        s
    }

    // Lists, if, if-else, for, def, load.
    #[cycle(walking)]
    #[inline(never)]
    fn block(&self, c: usize, k: usize, d: usize, w: &mut [u16], s: Scope) -> Scope
        requires { (k ≡ kind_at self.now.t.now c) × (8 ≤ k) × (k < 14) × (d ≤ c) × Node self.now.t.now c d × Fits w.old s }
        ensures { Goes self.now.t.now d (node_of self.now.t.now self.now.fail c) w.old s w.new result }
    {
        // Kept: returns: a chain of else says no more, and tried, its frame is 7,672 bytes for 4,408, a scope for each arm.
        if k == Kind::Statements as usize {
            return self.down(c, Wanted::Of(Role::Item), d, w, s);
        }
        if k == Kind::Def as usize {
            return self.def(c, d, w, s);
        }
        if k == Kind::Load as usize {
            return self.bind(c, Role::Item, Binding::Sets, w, s);
        }
        if k == Kind::For as usize {
            return self.loops(c, d, w, s);
        }
        self.cond(c, k, d, w, s)
    }

    // An if, an if-else: its condition first.
    #[cycle(walking)]
    #[inline(never)]
    fn cond(&self, c: usize, k: usize, d: usize, w: &mut [u16], mut s: Scope) -> Scope
        requires { (k ≡ kind_at self.now.t.now c) × (9 ≤ k) × (k < 11) × Node self.now.t.now c d × Fits w.old s }
        ensures { Goes self.now.t.now d (node_of self.now.t.now self.now.fail c) w.old s w.new result }
    {
        s = self.down(c, Wanted::Of(Role::Expression), d, w, s);
        if k == Kind::If as usize {
            self.side(c, d, w, s)
        } else {
            self.branch(c, d, w, s)
        }
    }

    // An if: the second side is empty.
    #[cycle(walking)]
    #[inline(never)]
    fn side(&self, c: usize, d: usize, w: &mut [u16], s: Scope) -> Scope
        requires { Node self.now.t.now c d × Fits w.old s }
        ensures { Goes self.now.t.now d (branch (down_of self.now.t.now self.now.fail (of_role 1) c) skip) w.old s w.new result }
    {
        let a = self.down(c, Wanted::Of(Role::First), d, w, s);
        a.back(s).join(a)
    }

    // Both sides start from the same standings and abort.
    #[cycle(walking)]
    #[inline(never)]
    fn branch(&self, c: usize, d: usize, w: &mut [u16], s: Scope) -> Scope
        requires { Node self.now.t.now c d × Fits w.old s }
        ensures { Goes self.now.t.now d (branch (down_of self.now.t.now self.now.fail (of_role 1) c) (down_of self.now.t.now self.now.fail (of_role 2) c)) w.old s w.new result }
    {
        let a = self.down(c, Wanted::Of(Role::First), d, w, s);
        let b = self.down(c, Wanted::Of(Role::Second), d, w, a.back(s));
        b.join(a)
    }

    // A for: what it goes over, then its rounds, two, or one past TWICE. Not in cond, whose sides would add to a for's stack.
    #[cycle(walking)]
    #[inline(never)]
    fn loops(&self, c: usize, d: usize, w: &mut [u16], mut s: Scope) -> Scope
        requires { (kind_at self.now.t.now c ≡ 11) × (d ≤ c) × Node self.now.t.now c d × Fits w.old s }
        ensures { Goes self.now.t.now d (node_of self.now.t.now self.now.fail c) w.old s w.new result }
    {
        let n = d + 1;
        s = self.down(c, Wanted::Of(Role::Expression), d, w, s);
        s = self.turn(c, n, w, s);
        if TWICE < n {
            return s;
        }
        // Kept: s again and then s: tried with the call itself at the end, the frame is 4,440 bytes for 3,336.
        s = self.turn(c, n, w, s);
        s
    }

    #[cycle(walking)]
    #[inline(never)]
    fn turn(&self, c: usize, d: usize, w: &mut [u16], s: Scope) -> Scope
        requires { Node self.now.t.now c d × Fits w.old s }
        ensures { Turns self.now.t.now d (down_of self.now.t.now self.now.fail (of_role 5) c ⨟ node_bind self.now.t.now 5 c ⨟ down_of self.now.t.now self.now.fail (of_role 1) c) w.old s w.new result }
    {
        let mut a = self.assign(c, d, w, s);
        a = self.down(c, Wanted::Of(Role::First), d, w, a);
        a.back(s).join(a).unlooped()
    }

    #[cycle(walking)]
    #[inline(never)]
    fn def(&self, c: usize, d: usize, w: &mut [u16], mut s: Scope) -> Scope
        requires { (kind_at self.now.t.now c ≡ 12) × Node self.now.t.now c d × Fits w.old s }
        ensures { Goes self.now.t.now d (node_of self.now.t.now self.now.fail c) w.old s w.new result }
    {
        s = self.down(c, Wanted::Of(Role::Item), d, w, s);
        s = self.down(c, Wanted::Of(Role::Type), d, w, s);
        s = self.bind(c, Role::Name, Binding::Sets, w, s);
        self.body(c, d, w, s)
    }

    // The scope of a def or a lambda.
    #[cycle(walking)]
    #[inline(always)]
    fn body(&self, c: usize, d: usize, w: &mut [u16], s: Scope) -> Scope
        requires { Node self.now.t.now c d × Fits w.old s }
        ensures { Goes self.now.t.now d (scope (node_bind self.now.t.now 0 c ⨟ down_of self.now.t.now self.now.fail (of_role 1) c)) w.old s w.new result }
    {
        let mut inner = self.bind(c, Role::Item, Binding::Sets, w, s.enter());
        inner = self.down(c, Wanted::Of(Role::First), d, w, inner);
        inner.leave(self.t, w, s)
    }

    #[cycle(walking)]
    #[inline(never)]
    fn lambda(&self, c: usize, d: usize, w: &mut [u16], mut s: Scope) -> Scope
        requires { (kind_at self.now.t.now c ≡ 24) × Node self.now.t.now c d × Fits w.old s }
        ensures { Goes self.now.t.now d (node_of self.now.t.now self.now.fail c) w.old s w.new result }
    {
        s = self.down(c, Wanted::Of(Role::Item), d, w, s);
        self.body(c, d, w, s)
    }

    #[cycle(walking)]
    #[inline(never)]
    fn expr(&self, c: usize, k: usize, d: usize, w: &mut [u16], s: Scope) -> Scope
        requires { (k ≡ kind_at self.now.t.now c) × (14 ≤ k) × Node self.now.t.now c d × Fits w.old s }
        ensures { Goes self.now.t.now d (node_of self.now.t.now self.now.fail c) w.old s w.new result }
    {
        // Kept: returns: a chain of else says no more, and tried, its frame is 6,584 bytes for 4,424, a scope for each arm.
        if k == Kind::Identifier as usize {
            return s.used(self.t, w, c);
        }
        if k == Kind::Lambda as usize {
            return self.lambda(c, d, w, s);
        }
        if k == Kind::ListComprehension as usize || k == Kind::DictComprehension as usize {
            return self.comp(c, d, w, s);
        }
        self.down(c, Wanted::All, d, w, s)
    }

    #[cycle(walking)]
    #[inline(never)]
    fn comp(&self, c: usize, d: usize, w: &mut [u16], mut s: Scope) -> Scope
        requires { Node self.now.t.now c d × Fits w.old s }
        ensures { Goes self.now.t.now d (over_of self.now.t.now self.now.fail c ⨟ scope (bound_of self.now.t.now self.now.fail c ⨟ down_of self.now.t.now self.now.fail (of_role 8) c ⨟ down_of self.now.t.now self.now.fail (of_role 4) c)) w.old s w.new result }
    {
        let e = c + size_at(self.t, c);
        let first = child_of(self.t, Role::Item as usize, c + 1, e);
        s = self.over(c, first, d, w, s);
        let inner = self.rest(c, first, d, w, s.enter());
        inner.leave(self.t, w, s)
    }

    // The over of the comprehension c's first clause.
    #[cycle(walking)]
    #[inline(never)]
    fn over(&self, c: usize, first: Option<usize>, d: usize, w: &mut [u16], s: Scope) -> Scope
        requires { (first ≡ first_clause self.now.t.now c) × Node self.now.t.now c d × Fits w.old s }
        ensures { Goes self.now.t.now d (over_of self.now.t.now self.now.fail c) w.old s w.new result }
    {
        let Some(x) = first else {
            return s;
        };
        self.down(x, Wanted::Of(Role::Expression), d, w, s)
    }

    // What of the comprehension c comes after its first over.
    #[cycle(walking)]
    #[inline(never)]
    fn rest(&self, c: usize, first: Option<usize>, d: usize, w: &mut [u16], mut s: Scope) -> Scope
        requires { (first ≡ first_clause self.now.t.now c) × Node self.now.t.now c d × Fits w.old s }
        ensures { Goes self.now.t.now d (bound_of self.now.t.now self.now.fail c ⨟ down_of self.now.t.now self.now.fail (of_role 8) c ⨟ down_of self.now.t.now self.now.fail (of_role 4) c) w.old s w.new result }
    {
        s = self.bound(c, first, d, w, s);
        s = self.down(c, Wanted::Of(Role::Key), d, w, s);
        self.down(c, Wanted::Of(Role::Expression), d, w, s)
    }

    // The first target, and the later clauses.
    #[cycle(walking)]
    #[inline(never)]
    fn bound(&self, c: usize, first: Option<usize>, d: usize, w: &mut [u16], mut s: Scope) -> Scope
        requires { (first ≡ first_clause self.now.t.now c) × Node self.now.t.now c d × Fits w.old s }
        ensures { Goes self.now.t.now d (bound_of self.now.t.now self.now.fail c) w.old s w.new result }
    {
        let Some(x) = first else {
            return s;
        };
        s = self.assign(x, d, w, s);
        self.later(c, x, d, w, s)
    }

    // The clauses of the comprehension c after the first, x.
    #[cycle(walking)]
    #[inline(never)]
    fn later(&self, c: usize, x: usize, d: usize, w: &mut [u16], mut s: Scope) -> Scope
        requires { (c < x) × (x < c + size_at self.now.t.now c) × Node self.now.t.now c d × Fits w.old s }
        ensures { Goes self.now.t.now d (clauses_of self.now.t.now self.now.fail (x + size_at self.now.t.now x) (c + size_at self.now.t.now c)) w.old s w.new result }
    {
        let e = c + size_at(self.t, c);
        for i in siblings(self.t, x + size_at(self.t, x), e) {
            s = self.clause(i, d, w, s);
        }
        s
    }

    #[cycle(walking)]
    #[inline(never)]
    fn clause(&self, i: usize, d: usize, w: &mut [u16], mut s: Scope) -> Scope
        requires { Node self.now.t.now i d × Fits w.old s }
        ensures { Goes self.now.t.now d (clause_of self.now.t.now self.now.fail i) w.old s w.new result }
    {
        if role_at(self.t, i) != Role::Item as usize {
            return s;
        }
        s = self.down(i, Wanted::Of(Role::Expression), d, w, s);
        self.assign(i, d, w, s)
    }

    // The names that the children of a role of node c bind.
    #[cycle(binding)]
    #[inline(never)]
    fn bind(&self, c: usize, role: Role, binding: Binding, w: &mut [u16], mut s: Scope) -> Scope
        requires { Node self.now.t.now c 0 × Fits w.old s }
        ensures { (d : ℕ) → Goes self.now.t.now d (pick (used_by binding) (node_use self.now.t.now (number role) c) (node_bind self.now.t.now (number role) c)) w.old s w.new result }
    {
        let e = c + size_at(self.t, c);
        for i in siblings(self.t, c + 1, e) {
            s = self.bind_one(i, role, binding, w, s);
        }
        s
    }

    #[cycle(binding)]
    #[inline(never)]
    fn bind_one(&self, i: usize, role: Role, binding: Binding, w: &mut [u16], s: Scope) -> Scope
        requires { Node self.now.t.now i 0 × Fits w.old s }
        ensures { (d : ℕ) → Goes self.now.t.now d (pick (eqb (number role) (role_at self.now.t.now i)) (name_node (used_by binding) self.now.t.now i) skip) w.old s w.new result }
    {
        if role_at(self.t, i) != role as usize {
            return s;
        }
        let k = kind_at(self.t, i);
        // Kept: returns: a chain of else says no more, and tried, its frame is 3,304 bytes for 2,216, a scope for each arm.
        if k == Kind::Several as usize {
            return self.bind(i, Role::Item, binding, w, s);
        }
        if binds_name(k) {
            return self.ident(i, binding, w, s);
        }
        s
    }

    // The name of node i.
    #[inline(never)]
    fn ident(&self, i: usize, binding: Binding, w: &mut [u16], s: Scope) -> Scope
        requires { Node self.now.t.now i 0 × Fits w.old s }
        ensures { (d : ℕ) → Goes self.now.t.now d (pick (used_by binding) (use_of (node_head self.now.t.now i)) (set_of (sort_of (kind_at self.now.t.now i)) (node_head self.now.t.now i))) w.old s w.new result }
    {
        match binding {
            Binding::Sets => s.set(self.t, w, i),
            Binding::Uses => s.used(self.t, w, i),
        }
    }
}

fn binds_name(k: usize) -> bool
    ensures { result ≡ names_of k }
{
    k == Kind::Name as usize || k == Kind::NamedParameter as usize || k == Kind::LoadedName as usize
}
