//! What the seats of a ring know, and the rule that holds between any two atomic steps.
ghost use Rattle.std.specs.Prelude.{ℕ};

use atomic_table::{Join, Play, Split, TableRule};
use bits_core::{Access, Event, Shape};
use std::collections::LinkedList;
use std::marker::{Brand, PhantomData};

/// What the two loads of a read found. It occurs only in contracts: no value of it is made.
///
/// For example, for a bit that is being written the first may have found 0 and the second 1: then the oracle is
/// asked.
pub struct Loads {
    /// What the first load found, when the read began.
    pub first: u64,
    /// What the second load found, when it ended.
    pub found: u64,
}

/// What a seat of a ring's table knows: the right to step for one side of the ring, or for both, with the list of the
/// events that it made. Each end of a ring has one such seat. It occurs only in contracts: no value of it is made.
///
/// For example, an end of a ring has one, and it has the events that the end has made.
pub struct View {
    /// Whether it may step for the producer.
    pub puts: bool,
    /// Whether it may step for the consumer.
    pub takes: bool,
    /// The events of the producer, if it steps for that.
    pub put: LinkedList<Event>,
    /// The events of the consumer, if it steps for that.
    pub taken: LinkedList<Event>,
    /// What the putter knew at the last meeting.
    pub known: LinkedList<Event>,
    /// What the taker knew at the last meeting.
    pub known_by_taker: LinkedList<Event>,
    /// The first load of the read that is open.
    pub first: u64,
    /// What the loads found for each read that has ended since the ends were made or last met.
    pub loads: LinkedList<Loads>,
}

/// A kind of ring: how many words a ring of a shape has, and what they show of a history. It occurs only in contracts and in
/// types: no value of it is made.
///
/// For example, [`Counting`](crate::Counting) and [`Flickering`](crate::Flickering).
pub trait WordKind {
    ghost use Rattle.std.specs.Prelude.{ℕ, List};
    ghost use Rattle.bits_core.specs.declared.shapes.Shape.{Shape};
    ghost use Rattle.bits_core.specs.declared.events.Event.{Event};

    ghost count: { Shape → ℕ };

    ghost shows: { Shape → List ℕ → List Event → Type 0 };
}

// A trait of its own: with an associated type of the kind, the kit's borrow checker would not cover a function that holds the table.
/// What the ends of a kind of ring keep of an access that is open.
///
/// For example, an end of a flickering ring keeps the first load of the read that it has open; one of a counter
/// ring keeps nothing.
pub trait Keeping: WordKind {
    ghost use Rattle.std.specs.Prelude.{◌≡◌, None};
    ghost use Rattle.bits_core.specs.declared.events.Side.{Side};
    ghost use Rattle.bits_core.specs.History.{open_access};
    ghost use Rattle.ring_seats.specs.declared.views.View.{View};
    ghost use Rattle.ring_seats.specs.Rule.{list_of};

    /// What an end keeps.
    type Kept: Drop;

    // It is what the view of a seat of the side has.
    ghost keeps: { Self.Kept → Side → View → Type 0 };

    /// What an end with no open access keeps.
    fn nothing() -> Self::Kept
        ensures { (x : Side) (v : View) → open_access x (list_of x v) ≡ None → v.first ≡ 0 → keeps result x v };
}

/// The rule of a ring's table, for the shape that is the table's key. It holds between any two atomic steps of any thread,
/// since each step has to preserve it. There is one lawful history of safe bits whose two sides follow their programs, such
/// that
/// - the words show it, as this kind of ring does;
/// - for each side of the ring there is one seat that may step for it, and no other, and that seat's list is the
///   history's events of the side;
/// - it begins with what the two sides knew at their last meeting;
/// - if a read is open, the load that its seat keeps is what the word showed when the read began.
///
/// For example, [`FlickerRule`](crate::FlickerRule) and [`CounterRule`](crate::CounterRule).
pub struct RuleOf<K> {
    kind: PhantomData<K>,
}

impl<K: WordKind> TableRule<(), View, Shape> for RuleOf<K> {
    ghost use Rattle.std.specs.Prelude.{[]};
    ghost use Rattle.ring_seats.specs.Rule.{KeptBy, joint};

    ghost holds = { KeptBy K.count K.shows };

    ghost first = { λ _. joint [] [] [] [] };
}

/// The kind of a flickering ring: the word of a bit is 2 if a write of the bit is open, otherwise what the bit holds.
///
/// For example, a `FlickerRing` of `ring_run` is the ring of this kind.
pub struct Flickering;

/// The rule of a flickering ring's table.
///
/// For example, the tests of `test_run` load words between two steps, and check that they satisfy it.
pub type FlickerRule = RuleOf<Flickering>;

/// What an end of a flickering ring keeps: its open access, and the first load of its open read.
#[derive(Drop)]
pub struct Opened {
    pub(crate) access: Option<Access>,
    pub(crate) first: u64,
}

impl WordKind for Flickering {
    ghost use Rattle.ring_seats.specs.Words.{word_count, Shows};

    ghost count = { word_count };

    ghost shows = { Shows };
}

impl Keeping for Flickering {
    ghost use Rattle.std.specs.Prelude.{◌≡◌};
    ghost use Rattle.bits_core.specs.History.{open_access};
    ghost use Rattle.ring_seats.specs.Rule.{list_of};

    type Kept = Opened;

    ghost keeps = { λ o x v. (v.first ≡ o.first) × (o.access ≡ open_access x (list_of x v)) };

    fn nothing() -> Opened {
        Opened {
            access: None,
            first: 0,
        }
    }
}

// What a step of a seat reports is chosen by the proof of its call; without a choice it reports nothing.
impl Play<(), View> for Brand {
    ghost then = { λ _ _ _ _. Unit {0} };
}

// The joint view is split in two.
pub struct Halves;

impl Split<View> for Halves {
    ghost use Rattle.ring_seats.specs.Rule.{putter_of, taker_of};

    ghost left = { putter_of };

    ghost right = { taker_of };
}

// The two views are joined.
pub struct Both;

impl Join<View> for Both {
    ghost use Rattle.ring_seats.specs.Rule.{joined, spent};

    ghost both = { joined };

    ghost spent = { spent };
}
