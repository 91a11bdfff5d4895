// A scope: what is set, with what standing, and what using, setting, entering and leaving do.
// What is always inlined spares the walk a copy of the scope in each of its frames (docs/SPEED.md, "Stack").
#![tactic(auto)]

ghost use Rattle.std.specs.Prelude.{◌≡◌, ◌||◌, ◌+◌, ◌-◌, ◌<◌, ◌≤◌, length, get_or};
ghost use Rattle.rules.specs.Names.{join_sure};
ghost use Rattle.scope.specs.State.{held_of, Fits};
ghost use Rattle.scope.specs.Words.{present_of, sure_of, aborts_of, unloop_of, standing_if, join_standing, joined_of, reset_of, mark_words, late_lines, use_lines, uses_lines, spared_at, spared_in, idle_lines, pass_lines, unknown_lines};
ghost use Rattle.scope.specs.Words.{new_scope, enter_scope, with_abort, with_warnings, added_words, added_scope, settled_scope, set_scope, marks_of, cannot_words, cannot_scope, unbinds_words, unbinds_scope, warn_words, warn_count, standing_in, outward_of};
ghost use Rattle.scope.specs.Words.{taken_words, taken_scope, away_words, away_scope, used_words, used_scope, back_scope, merged_scope, join_scope, idle_of, passed_of, leave_words, leave_scope, closed_of};

use crate::table::{
    BASE, CANT, ENDS, LOOSE, Like, Places, USED, code_of, find, has, join_list, same_name,
    same_spot, store, warn, word_at,
};
use rules::Code;
use tree::bytes::{kind_at, value_at};
use tree::lookup::{begins_underscore, globals_given, is_global};

pub mod table;

// A name's standing; Held: the setting is among its name's spans. One enum has both, so that an entry is one byte and a scope,
// which the walk hands on by value, half as many.
#[derive(Clone, Copy, Debug, PartialEq, Eq)]
pub enum Standing {
    Absent,
    Maybe,
    Definitely,
    HeldAbsent,
    HeldMaybe,
    HeldDefinitely,
}

impl Standing {
    fn new(held: bool, present: bool, sure: bool) -> Self
        ensures { result ≡ standing_if held present sure }
    {
        match (held, present, sure) {
            (false, false, _) => Standing::Absent,
            (false, true, false) => Standing::Maybe,
            (false, true, true) => Standing::Definitely,
            (true, false, _) => Standing::HeldAbsent,
            (true, true, false) => Standing::HeldMaybe,
            (true, true, true) => Standing::HeldDefinitely,
        }
    }

    fn is_held(self) -> bool
        ensures { result ≡ held_of self }
    {
        matches!(
            self,
            Standing::HeldAbsent | Standing::HeldMaybe | Standing::HeldDefinitely
        )
    }

    fn is_present(self) -> bool
        ensures { result ≡ present_of self }
    {
        !matches!(self, Standing::Absent | Standing::HeldAbsent)
    }

    fn is_sure(self) -> bool
        ensures { result ≡ sure_of self }
    {
        matches!(self, Standing::Definitely | Standing::HeldDefinitely)
    }

    // The standing after a branch whose sides have x and y, and abort or not.
    fn joined(held: bool, a: bool, b: bool, x: Standing, y: Standing) -> Self
        ensures { result ≡ join_standing held a b x y }
    {
        Standing::new(
            held,
            x.is_present() || y.is_present(),
            join_sure(a, b, x.is_sure(), y.is_sure()),
        )
    }
}

// In the order of how much they leave.
#[derive(Clone, Copy, Debug, PartialEq, Eq, PartialOrd, Ord)]
pub enum Abort {
    Runs,
    Loop,
    Function,
}

impl Abort {
    fn aborts(self) -> bool
        ensures { result ≡ aborts_of self }
    {
        !matches!(self, Abort::Runs)
    }

    fn unlooped(self) -> Self
        ensures { result ≡ unloop_of self }
    {
        match self {
            Abort::Runs | Abort::Loop => Abort::Runs,
            Abort::Function => Abort::Function,
        }
    }
}

// A setting.
#[derive(Clone, Copy, Debug, PartialEq, Eq)]
pub struct Entry {
    pub standing: Standing,
}

impl Entry {
    const GONE: Entry = Entry {
        standing: Standing::Absent,
    };

    // The entry of node k once node i is set.
    fn reset(self, t: &[u8], k: usize, i: usize) -> Self
        ensures { result ≡ reset_of t.now self k i }
    {
        if same_name(t, k, i) {
            Entry {
                standing: Standing::new(same_spot(t, i, k), true, true),
            }
        } else {
            self
        }
    }

    // The entry after a branch whose sides leave p and q, and abort or not.
    #[inline(always)]
    fn joined(a: bool, b: bool, p: Entry, q: Entry) -> Self
        ensures { result ≡ joined_of a b p q }
    {
        let held = p.standing.is_held() || q.standing.is_held();
        Entry {
            standing: Standing::joined(held, a, b, p.standing, q.standing),
        }
    }
}

// entries: by place, the settings of this scope and of those outside it. From first up to settings, cant up to cants, loose
// up to looses: the places of its settings, its can't-set and its unbound uses. warnings: how many so far, of all scopes.
// Kept: Fits and enter_scope of specs/ name each bound as a field of its own, and with no heap the counts stand beside an array.
#[derive(Clone, Copy, Debug, PartialEq, Eq)]
pub struct Scope {
    pub entries: [Entry; 1024],
    pub abort: Abort,
    pub first: usize,
    pub settings: usize,
    pub cant: usize,
    pub cants: usize,
    pub loose: usize,
    pub looses: usize,
    pub warnings: usize,
}

// Both abort: Definitely. One: the other's standing. Neither: Maybe unless both Definitely.
fn join_sure(a: bool, b: bool, x: bool, y: bool) -> bool
    ensures { result ≡ join_sure a b x y }
{
    match (a, b) {
        (true, true) => true,
        (true, false) => y,
        (false, true) => x,
        (false, false) => x && y,
    }
}

// The setting at place j is used, if it is among the spans of node i's name.
fn mark_one(t: &[u8], w: &mut [u16], held: bool, j: usize, i: usize)
    requires { j < 1024 }
    ensures { w.new ≡ mark_words t.now held w.old j i }
{
    if held && same_name(t, i, word_at(w, j)) {
        store(w, USED + j, 1);
    }
}

// Node i of the can't-set uses warns, if its name is set at one of the places: the count of warnings.
fn late_one(t: &[u8], w: &mut [u16], at: Places, n: usize, i: usize) -> usize
    requires { (n ≤ 1024) × (i < 65536) }
    ensures { (result ≡ (late_lines t.now at.from at.to w.old n i).count) × (w.new ≡ (late_lines t.now at.from at.to w.old n i).words) × (result ≤ 1024) }
{
    if has(t, w, Like::Name, at, i) {
        warn(t, w, n, Code::UsingUnassigned as usize, i)
    } else {
        n
    }
}

// Whether a setting that is not used, with no unbound use of its name, is no warning all the same. top: at module level.
fn spared_at(t: &[u8], top: bool, held: bool, i: usize) -> bool
    ensures { result ≡ spared_at t.now top held i }
{
    // The walk over the values that begins_underscore takes comes last, and only where it decides.
    if top {
        held && code_of(kind_at(t, i)) == Code::UnusedAssign as usize
            && !begins_underscore(t, value_at(t, i))
    } else {
        begins_underscore(t, value_at(t, i))
    }
}

// Node i's setting at place p is no warning; at: the scope's unbound uses.
fn spared(t: &[u8], w: &[u16], top: bool, held: bool, at: Places, p: usize, i: usize) -> bool
    requires { p ≤ 1024 }
    ensures { result ≡ spared_in t.now w.now top held at.from at.to p i }
{
    word_at(w, USED + p) == 1 || has(t, w, Like::Name, at, i) || spared_at(t, top, held, i)
}

fn idle_one(t: &[u8], w: &mut [u16], spared: bool, n: usize, i: usize) -> usize
    requires { (n ≤ 1024) × (i < 65536) }
    ensures { (result ≡ (idle_lines t.now spared w.old n i).count) × (w.new ≡ (idle_lines t.now spared w.old n i).words) × (result ≤ 1024) }
{
    if spared {
        n
    } else {
        warn(t, w, n, code_of(kind_at(t, i)), i)
    }
}

// An unbound use passes to a list, unless its name is set at one of the places: the list's end.
fn passed_one(t: &[u8], w: &mut [u16], at: Places, list: Places, i: usize) -> usize
    requires { i < 65536 }
    ensures { (result ≡ (pass_lines t.now at.from at.to list.from w.old list.to i).count) × (w.new ≡ (pass_lines t.now at.from at.to list.from w.old list.to i).words) × (list.to ≤ result) × (result ≤ list.to + 1) }
{
    if has(t, w, Like::Name, at, i) {
        list.to
    } else {
        join_list(t, w, list, ENDS, i)
    }
}

// An unbound use warns, unless its name is set at one of the places or is given.
fn unknown_one(t: &[u8], w: &mut [u16], at: Places, n: usize, i: usize) -> usize
    requires { (n ≤ 1024) × (i < 65536) }
    ensures { (result ≡ (unknown_lines t.now at.from at.to w.old n i).count) × (w.new ≡ (unknown_lines t.now at.from at.to w.old n i).words) × (result ≤ 1024) }
{
    if has(t, w, Like::Name, at, i) || is_global(t, value_at(t, i)) {
        n
    } else {
        warn(t, w, n, Code::UsingUndefined as usize, i)
    }
}

// Node i of the uses of a scope that is left warns: a can't-set one where `late`, else an unbound one.
// Kept: uses_lines of specs/, which the laws of leaving are about, has this flag.
fn warn_use(t: &[u8], w: &mut [u16], late: bool, at: Places, n: usize, i: usize) -> usize
    requires { (n ≤ 1024) × (i < 65536) }
    ensures { (result ≡ (use_lines late t.now at.from at.to w.old n i).count) × (w.new ≡ (use_lines late t.now at.from at.to w.old n i).words) × (result ≤ 1024) }
{
    if late {
        late_one(t, w, at, n, i)
    } else {
        unknown_one(t, w, at, n, i)
    }
}

impl Scope {
    pub fn new() -> Self
        ensures { result ≡ new_scope }
    {
        Scope {
            entries: [Entry::GONE; 1024],
            abort: Abort::Runs,
            first: 0,
            settings: 0,
            cant: CANT,
            cants: CANT,
            loose: LOOSE,
            looses: LOOSE,
            warnings: 0,
        }
    }

    // A new scope inside this one.
    #[inline(always)]
    pub fn enter(self) -> Self
        ensures { result ≡ enter_scope self }
    {
        Scope {
            abort: Abort::Runs,
            first: self.settings,
            cant: self.cants,
            loose: self.looses,
            ..self
        }
    }

    #[inline(always)]
    pub fn stop(self, a: Abort) -> Self
        ensures { result ≡ with_abort a self }
    {
        Scope { abort: a, ..self }
    }

    // A loop abort becomes none.
    #[inline(always)]
    pub fn unlooped(self) -> Self
        ensures { result ≡ with_abort (unloop_of self.abort) self }
    {
        self.stop(self.abort.unlooped())
    }

    // The places of its settings, its can't-set and its unbound uses.
    fn own(&self) -> Places
        requires { (self.now.first ≤ self.now.settings) × (self.now.settings ≤ 1024) }
        ensures { (result.from ≡ self.now.first) × (result.to ≡ self.now.settings) }
    {
        Places {
            from: self.first,
            to: self.settings,
        }
    }

    fn cant_set(&self) -> Places
        requires { (self.now.cant ≤ self.now.cants) × (self.now.cants ≤ 6144) }
        ensures { (result.from ≡ self.now.cant) × (result.to ≡ self.now.cants) }
    {
        Places {
            from: self.cant,
            to: self.cants,
        }
    }

    fn unbound(&self) -> Places
        requires { (self.now.loose ≤ self.now.looses) × (self.now.looses ≤ 13312) }
        ensures { (result.from ≡ self.now.loose) × (result.to ≡ self.now.looses) }
    {
        Places {
            from: self.loose,
            to: self.looses,
        }
    }

    // Node i among the settings, unless one with its span, name and sort is.
    fn added(mut self, t: &[u8], w: &mut [u16], i: usize) -> Self
        requires { (self.first ≤ self.settings) × (self.settings ≤ 1024) × (i < 65536) }
        ensures { (result ≡ added_scope t.now w.old self i) × (w.new ≡ added_words t.now w.old self i) }
    {
        if has(t, w, Like::Setting, self.own(), i) || self.entries.len() <= self.settings {
            return self;
        }
        store(w, self.settings, i);
        store(w, USED + self.settings, 0);
        store(w, BASE + self.settings, self.first);
        self.settings += 1;
        self
    }

    // The settings of node i's name: Definitely, and node i's span the only one.
    fn settled(mut self, t: &[u8], w: &[u16], i: usize) -> Self
        requires { self.settings ≤ 1024 }
        ensures { result ≡ settled_scope t.now w.now self i }
    {
        for j in self.first..self.settings {
            self.entries[j] = self.entries[j].reset(t, word_at(w, j), i);
        }
        self
    }

    // Node i's name is set.
    pub fn set(self, t: &[u8], w: &mut [u16], i: usize) -> Self
        requires { Fits w.old self × (i < 65536) }
        ensures { (result ≡ set_scope t.now w.old self i) × (w.new ≡ added_words t.now w.old self i) }
    {
        self.added(t, w, i).settled(t, w, i)
    }

    // The spans of node i's name at the places are used.
    fn mark(self, t: &[u8], w: &mut [u16], at: Places, i: usize)
        requires { at.to ≤ 1024 }
        ensures { w.new ≡ marks_of t.now self.entries i w.old at.from at.to }
    {
        for j in at.from..at.to {
            mark_one(t, w, self.entries[j].standing.is_held(), j, i);
        }
    }

    fn cannot(mut self, t: &[u8], w: &mut [u16], i: usize) -> Self
        requires { (self.cant ≤ self.cants) × (self.cants ≤ 6144) × (i < 65536) }
        ensures { (result ≡ cannot_scope t.now w.old self i) × (w.new ≡ cannot_words t.now w.old self i) }
    {
        self.cants = join_list(t, w, self.cant_set(), LOOSE, i);
        self
    }

    fn unbinds(mut self, t: &[u8], w: &mut [u16], i: usize) -> Self
        requires { (self.loose ≤ self.looses) × (self.looses ≤ 13312) × (i < 65536) }
        ensures { (result ≡ unbinds_scope t.now w.old self i) × (w.new ≡ unbinds_words t.now w.old self i) }
    {
        self.looses = join_list(t, w, self.unbound(), ENDS, i);
        self
    }

    fn warned(mut self, t: &[u8], w: &mut [u16], code: usize, i: usize) -> Self
        requires { (self.warnings ≤ 1024) × (code < 65536) × (i < 65536) }
        ensures { (result ≡ with_warnings (warn_count t.now w.old self.warnings i) self) × (w.new ≡ warn_words t.now w.old self.warnings code i) }
    {
        self.warnings = warn(t, w, self.warnings, code, i);
        self
    }

    // The standing of node i's name at the places, where one scope's settings are.
    fn standing(self, t: &[u8], w: &[u16], at: Places, i: usize) -> Standing
        requires { at.to ≤ 1024 }
        ensures { result ≡ standing_in t.now w.now self.entries at.from at.to i }
    {
        match find(t, w, Like::Name, at, i) {
            Some(p) => self.entries[p].standing,
            None => Standing::Absent,
        }
    }

    // A use of node i, whose name has this standing in the scope with the places.
    fn taken(self, t: &[u8], w: &mut [u16], at: Places, i: usize, s: Standing) -> Self
        requires { (at.to ≤ 1024) × (self.warnings ≤ 1024) × (i < 65536) }
        ensures { (result ≡ taken_scope t.now w.old self at.from at.to i s) × (w.new ≡ taken_words t.now w.old self at.from at.to i s) }
    {
        self.mark(t, w, at, i);
        if s.is_sure() {
            self
        } else {
            self.warned(t, w, Code::UsingMaybeUndefined as usize, i)
        }
    }

    // A use of node i, whose name is absent everywhere.
    fn nowhere(self, t: &[u8], w: &mut [u16], i: usize) -> Self
        requires { Fits w.old self × (i < 65536) }
        ensures { (result ≡ away_scope t.now w.old self 0 i) × (w.new ≡ away_words t.now w.old self 0 i) }
    {
        self.cannot(t, w, i).unbinds(t, w, i)
    }

    // A use of node i, whose name has this standing in the scope outside with the places.
    fn outside(self, t: &[u8], w: &mut [u16], at: Places, i: usize, k: Standing) -> Self
        requires { (at.to ≤ 1024) × Fits w.old self × (i < 65536) }
        ensures { (result ≡ cannot_scope t.now (taken_words t.now w.old self at.from at.to i k) (taken_scope t.now w.old self at.from at.to i k) i) × (w.new ≡ cannot_words t.now (taken_words t.now w.old self at.from at.to i k) (taken_scope t.now w.old self at.from at.to i k) i) }
    {
        self.taken(t, w, at, i, k).cannot(t, w, i)
    }

    // A use of node i, whose name is absent in this scope: the nearest one outside where it has a standing counts.
    fn away(self, t: &[u8], w: &mut [u16], i: usize) -> Self
        requires { Fits w.old self × (i < 65536) }
        ensures { (result ≡ away_scope t.now w.old self (outward_of t.now w.old self i) i) × (w.new ≡ away_words t.now w.old self (outward_of t.now w.old self i) i) }
    {
        let mut b = self.first;
        // Kept: where a scope begins is read from its last place, so no range has the steps.
        while 0 < b {
            let a = word_at(w, BASE + (b - 1));
            if b <= a {
                return self.nowhere(t, w, i);
            }
            let at = Places { from: a, to: b };
            let k = self.standing(t, w, at, i);
            if k.is_present() {
                return self.outside(t, w, at, i, k);
            }
            b = a;
        }
        self.nowhere(t, w, i)
    }

    // Node i's name is used.
    pub fn used(self, t: &[u8], w: &mut [u16], i: usize) -> Self
        requires { Fits w.old self × (i < 65536) }
        ensures { (result ≡ used_scope t.now w.old self i) × (w.new ≡ used_words t.now w.old self i) }
    {
        let own = self.own();
        let s = self.standing(t, w, own, i);
        if s.is_present() {
            self.taken(t, w, own, i, s)
        } else {
            self.away(t, w, i)
        }
    }

    // The standings and the abort of s again, with what has gathered since.
    #[inline(always)]
    pub fn back(self, s: Scope) -> Self
        ensures { result ≡ back_scope s self }
    {
        // Kept: the borrow check takes an array field from a variable alone.
        let entries = s.entries;
        Scope {
            entries,
            abort: s.abort,
            ..self
        }
    }

    // The standings of both sides, of which this is the second.
    #[inline(always)]
    fn merged(mut self, one: Scope, a: bool, b: bool) -> Self
        requires { self.settings ≤ 1024 }
        ensures { result ≡ merged_scope a b one self }
    {
        for j in self.first..self.settings {
            self.entries[j] = Entry::joined(a, b, one.entries[j], self.entries[j]);
        }
        self
    }

    #[inline(always)]
    pub fn join(self, one: Scope) -> Self
        requires { self.settings ≤ 1024 }
        ensures { result ≡ join_scope one self }
    {
        let a = one.abort;
        let b = self.abort;
        self.merged(one, a.aborts(), b.aborts()).stop(a.min(b))
    }

    // The uses at the places: can't-set ones whose name is set here where `late`, else unbound ones that are neither set nor
    // given. The count of warnings.
    fn warn_uses(self, t: &[u8], w: &mut [u16], late: bool, mut count: usize, at: Places) -> usize
        requires { (self.first ≤ self.settings) × (self.settings ≤ 1024) × (count ≤ 1024) }
        ensures { (result ≡ (uses_lines late t.now self.first self.settings w.old count at.from (at.to - at.from)).count) × (w.new ≡ (uses_lines late t.now self.first self.settings w.old count at.from (at.to - at.from)).words) × (result ≤ 1024) }
    {
        let own = self.own();
        for k in at.from..at.to {
            count = warn_use(t, w, late, own, count, word_at(w, k));
        }
        count
    }

    // Settings that are not used: the count of warnings.
    fn idle(self, t: &[u8], w: &mut [u16], top: bool, mut count: usize) -> usize
        requires { (self.first ≤ self.settings) × (self.settings ≤ 1024) × (self.loose ≤ self.looses) × (self.looses ≤ 13312) × (count ≤ 1024) }
        ensures { (result ≡ (idle_of t.now top w.old count self).count) × (w.new ≡ (idle_of t.now top w.old count self).words) × (result ≤ 1024) }
    {
        let own = self.own();
        let unbound = self.unbound();
        for j in self.first..self.settings {
            let i = word_at(w, j);
            let p = find(t, w, Like::Spot, own, i).unwrap_or(j);
            let held = self.entries[p].standing.is_held();
            let spared = spared(t, w, top, held, unbound, p, i);
            count = idle_one(t, w, spared, count, i);
        }
        count
    }

    // Unbound uses not set here join those of the scope outside, which begin at z: where these end.
    fn passed(self, t: &[u8], w: &mut [u16], z: usize) -> usize
        requires { (self.first ≤ self.settings) × (self.settings ≤ 1024) × (z ≤ self.loose) × (self.looses ≤ 13312) }
        ensures { (result ≡ (passed_of t.now w.old z self).count) × (w.new ≡ (passed_of t.now w.old z self).words) }
    {
        let own = self.own();
        let mut end = self.loose;
        for k in self.loose..self.looses {
            let list = Places { from: z, to: end };
            end = passed_one(t, w, own, list, word_at(w, k));
        }
        end
    }

    // This scope is left, and the one outside it goes on.
    pub fn leave(self, t: &[u8], w: &mut [u16], outside: Scope) -> Self
        requires { Fits w.old self × (outside.loose ≤ self.loose) }
        ensures { (result ≡ leave_scope t.now w.old self outside) × (w.new ≡ leave_words t.now w.old self outside) }
    {
        let late = self.warn_uses(t, w, true, self.warnings, self.cant_set());
        let warnings = self.idle(t, w, false, late);
        let looses = self.passed(t, w, outside.loose);
        Scope {
            warnings,
            looses,
            ..outside
        }
    }

    // The module is left: the count of warnings.
    pub fn closed(self, t: &[u8], w: &mut [u16]) -> usize
        requires { Fits w.old self }
        ensures { (result ≡ (closed_of t.now w.old self).count) × (w.new ≡ (closed_of t.now w.old self).words) × (result ≤ 1024) }
    {
        let late = self.warn_uses(t, w, true, self.warnings, self.cant_set());
        let idle = self.idle(t, w, true, late);
        if globals_given(t) {
            self.warn_uses(t, w, false, idle, self.unbound())
        } else {
            idle
        }
    }
}
