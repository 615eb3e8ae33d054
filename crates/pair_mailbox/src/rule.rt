//! The rule of a pair's queue, and its kinds of step.

use crate::route::Route;
use crossbeam_queue::protocol::{Join, Lesson, Outcome, Protocol, Split};
use crossbeam_queue::{Pass, RuledArrayQueue};
use letters::Letter;
use std::collections::LinkedList;
use std::marker::{Brand, PhantomData};

/// The queue of a pair.
pub(crate) type Queue = RuledArrayQueue<Letter, View, InOrder>;

/// A pass to the queue of a pair.
pub(crate) type PairPass = Pass<Letter, View>;

/// What a pass may do, whose letters it is for, and what it has sent and taken. No value of it is made.
pub struct View {
    pub sends: bool,
    pub takes: bool,
    pub route: Route,
    pub sent: LinkedList<Letter>,
    pub taken: LinkedList<Letter>,
}

/// The rule: letters come out in the order in which they went in.
pub struct InOrder;

impl Protocol<Letter, View> for InOrder {
    ghost use Rattle.std.specs.Prelude.{[]};
    ghost use Rattle.pair_mailbox.specs.Rule.{Carries, whole, no_route};

    ghost holds = { Carries };

    ghost first = { whole no_route [] [] };
}

/// The route that an opening writes.
pub trait Opened {
    ghost use Rattle.pair_mailbox.specs.declared.route.Route.{Route};

    ghost route: { Route };
}

impl Opened for Brand {
    ghost use Rattle.pair_mailbox.specs.Rule.{no_route};

    ghost route = { no_route };
}

/// Kind 1, the opening: the maker's pass gets its route. The other pass that this split makes is idle.
pub struct Opening<K: Opened> {
    of: PhantomData<K>,
}

impl<K: Opened> Split<View> for Opening<K> {
    ghost use Rattle.std.specs.Prelude.{[]};
    ghost use Rattle.pair_mailbox.specs.Rule.{whole, idle};

    ghost left = { λ v. whole K.route [] [] };

    ghost right = { λ v. idle };
}

/// Kind 2, the split into sender and taker, and kind 7, their join at closing.
pub struct Ends;

impl Split<View> for Ends {
    ghost use Rattle.pair_mailbox.specs.Rule.{sender, taker};

    ghost left = { λ v. sender v.route v.sent };

    ghost right = { λ v. taker v.route v.taken };
}

impl Join<View> for Ends {
    ghost use Rattle.pair_mailbox.specs.Rule.{whole, idle};

    ghost both = { λ v w. whole v.route v.sent w.taken };

    ghost spent = { idle };
}

/// Kind 3, a push, and kind 4, a push that found the queue full: all that it held was sent.
pub struct Push;

impl Outcome<Letter, View> for Push {
    ghost use Rattle.std.specs.Prelude.{◌≡◌, ◌++◌, ◌∷◌, []};
    ghost use Rattle.pair_mailbox.specs.Rule.{sender};

    ghost then = { λ v x w. w ≡ sender v.route (v.sent ++ x ∷ []) };
}

impl Lesson<Letter, View> for Push {
    ghost use Rattle.std.specs.Prelude.{◌≤◌, length};

    ghost fact = { λ v held. length held ≤ length v.sent };
}

/// Kind 5, a pop, and kind 6, a pop that found the queue empty.
pub struct Pop;

impl Outcome<Letter, View> for Pop {
    ghost use Rattle.std.specs.Prelude.{◌≡◌, ◌++◌, ◌∷◌, [], length};
    ghost use Rattle.pair_mailbox.specs.Rule.{taker, IsNextLetter};

    ghost then = { λ v x w. (w ≡ taker v.route (v.taken ++ x ∷ [])) × IsNextLetter v.route (length v.taken) x };
}

impl Lesson<Letter, View> for Pop {
    ghost use Rattle.std.specs.Prelude.{⊤};

    ghost fact = { λ v held. ⊤ };
}

/// What a joined pass learns at closing.
pub struct Total;

impl Lesson<Letter, View> for Total {
    ghost use Rattle.pair_mailbox.specs.Rule.{IsAfter, AreNumbered};

    ghost fact = { λ v held. IsAfter v.taken v.sent held × AreNumbered v.route v.sent };
}
