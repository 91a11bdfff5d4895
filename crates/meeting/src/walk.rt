// The nodes that the names walk meets, in its order.
ghost use Rattle.std.specs.Prelude.{◌≡◌, eqb, map};
ghost use Rattle.tree.specs.Forest.{forest_of};
ghost use Rattle.tree.specs.code.Part.{Part, Subtree};
ghost use Rattle.rules.specs.Order.{every};
ghost use Rattle.meeting.specs.Asked.{visits, no_ask, asked_as, wanted, after as after_of, row};
ghost use Rattle.meeting.specs.Asked.{at, below as below_of, run, step as step_of};
ghost use Rattle.meeting.specs.Meant.{meant, number};
ghost use Rattle.meeting.specs.Walked.{Walked};

use crate::{kinds, meet};
use tree::bytes::{kind_at, role_at, size_at};
use tree::kinds::Role;
use tree::siblings::siblings;

// What is asked of a node's children, or of the node itself.
#[derive(Clone, Copy, Debug, PartialEq, Eq)]
pub(crate) enum Ask {
    // A visit of those of a role, or of every one.
    Of(Role),
    Every,
    // The same of a comprehension's: its first over; its first target and later clauses; its later clauses.
    FirstOver,
    FirstTarget,
    Clauses,
    // The names that those of a role bind.
    Names(Role),
    Nothing,
    // The node itself is met.
    Itself,
}

// What a visit of a node of this kind asks, in order.
#[tactic(auto, unfolding(crate::specs::Asked::row, crate::specs::Asked::form_row))]
fn visit_plan(kind: usize) -> &'static [Ask]
    ensures { map number result.now ≡ row (visits every) kind }
{
    use Ask::{Every, FirstOver, FirstTarget, Itself, Names, Of};
    use Role::{Expression, First, Item, Key, Name, Second, Target, Type};
    match kind {
        kinds::BREAK | kinds::CONTINUE => &[],
        kinds::RETURN | kinds::EXPRESSION => &[Of(Expression)],
        kinds::ASSIGN => &[Of(Type), Of(Expression), Of(Target), Names(Target)],
        kinds::ASSIGN_MODIFY => &[
            Of(Expression),
            Of(Target),
            Names(Target),
            Of(Target),
            Names(Target),
        ],
        kinds::STATEMENTS => &[Of(Item)],
        kinds::IF => &[Of(Expression), Of(First)],
        kinds::IF_ELSE => &[Of(Expression), Of(First), Of(Second)],
        kinds::FOR => &[Of(Expression), Of(Target), Names(Target), Of(First)],
        kinds::DEF => &[Of(Item), Of(Type), Names(Name), Names(Item), Of(First)],
        kinds::LOAD => &[Names(Item)],
        kinds::IDENTIFIER => &[Itself],
        kinds::LAMBDA => &[Of(Item), Names(Item), Of(First)],
        kinds::LIST_COMPREHENSION | kinds::DICT_COMPREHENSION => &[
            FirstOver,
            FirstTarget,
            Of(Key),
            Of(Expression),
        ],
        _ => &[Every],
    }
}

// What asking a node of this kind for the names that it binds asks, in order.
#[tactic(auto, unfolding(crate::specs::Asked::row, crate::specs::Asked::bind_row))]
fn bind_plan(kind: usize) -> &'static [Ask]
    ensures { map number result.now ≡ row no_ask kind }
{
    match kind {
        kinds::NAME | kinds::NAMED_PARAMETER | kinds::LOADED_NAME => &[Ask::Itself],
        kinds::SEVERAL => &[Ask::Names(Role::Item)],
        _ => &[],
    }
}

impl Ask {
    // A node of this role is one of those asked for.
    #[tactic(auto, unfolding(crate::specs::Asked::wanted))]
    fn wants(self, role: usize) -> bool
        ensures { result ≡ wanted (meant self) role }
    {
        match self {
            Ask::Of(asked) | Ask::Names(asked) => role == asked as usize,
            Ask::Every => true,
            Ask::FirstOver | Ask::FirstTarget | Ask::Clauses => role == Role::Item as usize,
            Ask::Nothing | Ask::Itself => false,
        }
    }

    // What is asked of the siblings after a node of this role.
    #[tactic(auto, unfolding(crate::specs::Asked::after))]
    fn after(self, role: usize) -> Ask
        ensures { meant result ≡ after_of (meant self) (eqb 0 role) }
    {
        match self {
            _ if role != Role::Item as usize => self,
            Ask::FirstOver => Ask::Nothing,
            Ask::FirstTarget => Ask::Clauses,
            _ => self,
        }
    }

    // What it asks of a node of this kind, in order.
    #[tactic(auto, unfolding(crate::specs::Asked::row))]
    fn plan(self, kind: usize) -> &'static [Ask]
        ensures { map number result.now ≡ row (meant self) kind }
    {
        match self {
            Ask::Of(_) | Ask::Every => visit_plan(kind),
            Ask::FirstOver => &[Ask::Of(Role::Expression)],
            Ask::FirstTarget => &[Ask::Of(Role::Target), Ask::Names(Role::Target)],
            Ask::Clauses => &[
                Ask::Of(Role::Expression),
                Ask::Of(Role::Target),
                Ask::Names(Role::Target),
            ],
            Ask::Names(_) | Ask::Nothing | Ask::Itself => bind_plan(kind),
        }
    }
}

// The walk of a file t, with the places that stand in w.
#[derive(Drop)]
pub(crate) struct Walk<'a, 'b> {
    pub(crate) t: &'a [u8],
    pub(crate) w: &'b mut [u16],
    pub(crate) places: usize,
}

impl<'a, 'b> Walk<'a, 'b> {
    // The siblings from node i up to e, by what is asked of them.
    #[cycle(visiting)]
    pub(crate) fn visit(&mut self, first: Ask, i: usize, e: usize)
        requires { Part self.old.t.now i e }
        ensures { Walked self.old self.new (asked_as (meant first) (forest_of self.old.t.now i e)) }
    {
        let mut ask = first;
        for c in siblings(self.t, i, e) {
            self.step(ask, c);
            ask = ask.after(role_at(self.t, c));
        }
    }

    // Node c, where it is asked for.
    #[cycle(visiting)]
    fn step(&mut self, ask: Ask, c: usize)
        requires { Subtree self.old.t.now c }
        ensures { Walked self.old self.new (at (step_of (meant ask)) self.old.t.now c) }
    {
        if ask.wants(role_at(self.t, c)) {
            self.node(ask.plan(kind_at(self.t, c)), c);
        }
    }

    // Node c by its plan.
    #[cycle(visiting)]
    fn node(&mut self, plan: &[Ask], c: usize)
        requires { Subtree self.old.t.now c }
        ensures { Walked self.old self.new (at (run (map number plan.now)) self.old.t.now c) }
    {
        for ask in plan {
            self.below(*ask, c);
        }
    }

    // What is asked of the children of node c, or of the node itself.
    #[cycle(visiting)]
    fn below(&mut self, ask: Ask, c: usize)
        requires { Subtree self.old.t.now c }
        ensures { Walked self.old self.new (at (below_of (number ask)) self.old.t.now c) }
    {
        match ask {
            Ask::Itself => meet(self.t, self.w, self.places, c),
            _ => self.visit(ask, c + 1, c + size_at(self.t, c)),
        }
    }
}
