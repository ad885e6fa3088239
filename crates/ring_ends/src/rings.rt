//! The ring.
ghost use Rattle.std.specs.Prelude.{◌≡◌, ◌<◌, [], true, IfOk, length};
ghost use Rattle.bits_core.specs.Shape.{belongs};
ghost use Rattle.ring_seats.specs.Rule.{KeepsFlickerRule, IsWordFound, joint};
ghost use Rattle.ring_seats.specs.Words.{word_place};

use crate::meetings::Finished;
use atomic_table::{Seat, Shared, Table};
use bits_core::{Bit, MemoryFault, Shape};
use ring_seats::{
    Flickering, LastWords, RuleOf, View, WordKind, Words, close_table, flicker_table,
};
use std::alloc::Allocator;
use std::marker::{Model, PhantomData};

/// Why a ring was not made, or a relay returned no outcome: `OutOfMemory`, if memory for the words of a ring, or for the
/// items that a relay took, ran out. Its number is 1.
///
/// In use: `uses::relays::pass_on`.
pub type RunFault = MemoryFault;

// Unused words on either side of a ring, and of an end: they keep other values off the cache lines between them.
// Without them a relay took up to twice as long. The kit's `CachePadded` would have its borrows in each clause of an end.
#[derive(Drop)]
pub(crate) struct Pad([u64; 8]);

impl Pad {
    pub(crate) fn new() -> Pad {
        Pad([0; 8])
    }
}

/// A ring with one producer and one consumer, of one kind. To a contract a ring is its shape, and which ring it is.
#[derive(Drop)]
#[repr(C)]
pub struct RingIn<K: WordKind, A: Allocator> {
    before: Pad,
    table: Table<(), View, Shape, RuleOf<K>, A>,
    shape: Shape,
    after: Pad,
}

impl<K: WordKind, A: Allocator> Model for RingIn<K, A> {
    ghost use Rattle.std.specs.Prelude.{◌≡◌, ◌<◌};
    ghost use Rattle.ring_seats.specs.Ring.{Ring};

    ghost Value = { Ring };

    ghost view = { λ r. record { shape = r.shape; id = r.table.shared.table_id } };

    ghost invariant = { λ r. (r.table.shared.key ≡ r.shape) × (r.table.shared.table_id.words ≡ K.count r.shape) ×
        (r.table.shared.table_id.slots ≡ 0) × (0 < K.count r.shape) };
}

impl<K: WordKind, A: Allocator> RingIn<K, A> {
    // The ring of a table whose key is the shape.
    pub(crate) fn of(table: Table<(), View, Shape, RuleOf<K>, A>, shape: Shape) -> RingIn<K, A>
        requires { (table.shared.key ≡ shape) × (table.shared.table_id.words ≡ K.count shape) ×
            (table.shared.table_id.slots ≡ 0) × (0 < K.count shape) }
        ensures { result ≡ record { shape = shape; id = table.shared.table_id } }
    {
        RingIn {
            before: Pad::new(),
            table,
            shape,
            after: Pad::new(),
        }
    }

    /// The shape of the ring.
    pub fn shape(&self) -> Shape
        ensures { result ≡ self.now.shape }
    {
        self.shape
    }

    /// The words of the ring, with the rule that holds for them between any two atomic steps of any thread. Its type
    /// guarantees this: a step of a [`Shared`] has to preserve the rule of its type, for its key, which is the ring's
    /// shape.
    pub fn table(&self) -> &Shared<(), View, Shape, RuleOf<K>>
        ensures { (result.now.key ≡ self.now.shape) × (result.now.table_id ≡ self.now.id) ×
            (result.now.table_id.words ≡ K.count self.now.shape) }
    {
        &self.table.shared
    }

    /// The words of the ring once its run is over: they show the history that remains of it, as this kind of ring does
    /// ([`WordKind`]). There are as many as the ring has. What remains of the run is of this ring; both are consumed. It makes no
    /// access and takes no memory.
    ///
    /// In use: `uses::two_threads::pass_through`.
    pub fn close(self, finished: Finished) -> LastWords<A>
        requires ring { finished.id ≡ self.id }
        ensures count { length result ≡ K.count self.shape }
        ensures shows { K.shows self.shape result finished.history }
    {
        let RingIn { table, .. } = self;
        let Finished { seat, .. } = finished;
        close_table(table, seat)
    }

    // The words as an end reaches them.
    pub(crate) fn words<'a>(&'a self) -> Words<'a, K>
        ensures { result ≡ self.now }
    {
        Words::of(&self.table.shared, self.shape)
    }
}

/// The safe bits of one producer and one consumer, shared by two threads with no lock (Lamport 1977, over the
/// registers of 1986).
///
/// Each bit has an atomic word of its own: 0 or 1, and 2 while a write of the bit is under way. A read loads the word
/// twice. If both loads return 0, or both return 1, that is its answer; otherwise a write may overlap the read, and
/// the reading end's oracle answers it. So a bit is only safe: it flickers while it is written.
///
/// In use: `uses::steps::take_amid_put`.
pub type FlickerRing<A> = RingIn<Flickering, A>;

/// The right to make the two ends of one ring of this kind; there is no other way to make them. To a contract it is which ring it is.
///
/// In use: `uses::two_threads::pass_through`, as that of a counter ring.
#[derive(Drop)]
pub struct StartIn<K: WordKind> {
    pub(crate) seat: Seat<(), View>,
    kind: PhantomData<K>,
}

impl<K: WordKind> Model for StartIn<K> {
    ghost use Rattle.std.specs.Prelude.{◌≡◌, []};
    ghost use Rattle.atomic_table.specs.Seated.{TableId, table_id_coded};
    ghost use Rattle.ring_seats.specs.Rule.{joint};

    ghost Value = { TableId };

    ghost coded = { table_id_coded };

    ghost view = { λ s. s.seat.table_id };

    ghost invariant = { λ s. s.seat.me ≡ (joint [] [] [] [], []) };
}

impl<K: WordKind> StartIn<K> {
    // The start of the ring of this seat, which nobody else has.
    pub(crate) fn of(seat: Seat<(), View>) -> StartIn<K>
        requires { seat.me ≡ (joint [] [] [] [], []) }
        ensures { result ≡ seat.table_id }
    {
        StartIn {
            seat,
            kind: PhantomData,
        }
    }
}

/// The right to make the two ends of one flickering ring.
///
/// In use: `uses::steps::take_amid_put`.
pub type Start = StartIn<Flickering>;

impl<A: Allocator + Copy> FlickerRing<A> {
    /// A ring of this shape with nothing put, and the right to make its ends. It takes memory for one word for each
    /// bit, and for 16 words after the close bit, each count and each cell, which keep these apart. `OutOfMemory` is
    /// returned only if the allocator refused that.
    pub fn new(alloc: A, shape: Shape) -> Result<(FlickerRing<A>, Start), RunFault>
        ensures { IfOk result (λ r. (r.0.shape ≡ shape) × (r.1 ≡ r.0.id)) }
    {
        let (table, seat) = flicker_table(alloc, shape)?;
        Ok((RingIn::of(table, shape), StartIn::of(seat)))
    }
}

impl<A: Allocator> FlickerRing<A> {
    /// Loads the word of a bit: 0 or 1, and 2 while a write of the bit is under way. Any thread may do so at any time, whatever the two
    /// ends are doing, and it is not an event of either. A convenience for observers: the word is that of some state that satisfies the
    /// ring's rule ([`FlickerRule`](ring_seats::FlickerRule)), so that there is a lawful history of which its bit shows this. The type of
    /// the ring's table guarantees that each step preserves the rule. The bit is one of the ring's shape.
    pub fn observe(&self, bit: Bit) -> u64
        requires { belongs self.now.shape bit ≡ true }
        ensures { IsWordFound (KeepsFlickerRule self.now.shape) (word_place self.now.shape bit) result }
    {
        self.words().find_bit(bit)
    }
}
