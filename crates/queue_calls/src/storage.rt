//! Where the lists of a recording are stored.

use call_causes::{Offered, Taken};
use lists::{Fifo, Filled, Slots, Store};
use std::alloc::Allocator;
use std::collections::VecDeque;
use std::marker::PhantomData;

/// Where the lists of a recording are stored: with [`Owned`] in memory of an allocator, with [`Lent`] in slots of the caller.
///
/// In use: `uses::findings::found_in_slots`.
pub trait Storage {
    /// The items that were offered and not taken, with the lines of their puts.
    type Offered: Fifo<Offered>;
    /// The items taken last, with the lines of their takes.
    type Taken: Fifo<Taken>;
    /// The numbers of a line.
    type Numbers: Store<u64>;
    /// The bytes of a line.
    type Bytes: Store<u8>;
}

/// Lists in memory of an allocator, which grow as needed.
///
/// In use: `uses::findings::found_in`.
#[derive(Drop)]
pub struct Owned<A: Allocator> {
    of: PhantomData<A>,
}

impl<A: Allocator> Storage for Owned<A> {
    type Offered = VecDeque<Offered, A>;

    type Taken = VecDeque<Taken, A>;

    type Numbers = Vec<u64, A>;

    type Bytes = Vec<u8, A>;
}

/// Lists in slots that the caller lends.
///
/// In use: `uses::findings::found_in_slots`.
#[derive(Drop)]
pub struct Lent<'a> {
    of: PhantomData<&'a mut [u64]>,
}

impl<'a> Storage for Lent<'a> {
    type Offered = Slots<'a, Offered>;

    type Taken = Slots<'a, Taken>;

    type Numbers = Filled<'a, u64>;

    type Bytes = Filled<'a, u8>;
}

/// The lists of a recording, all together.
///
/// In use: `uses::findings::found_in_slots`.
#[derive(Drop)]
pub struct Lists<S: Storage> {
    /// The items that may be inside: those stored, and those that the put under way offers, with the lines that offered and stored
    /// them.
    pub offered: S::Offered,
    /// The last [`TAKEN_LIMIT`](crate::TAKEN_LIMIT) items taken.
    pub taken: S::Taken,
    /// The numbers of a line.
    pub numbers: S::Numbers,
    /// The bytes of a line that came in several pieces.
    pub bytes: S::Bytes,
}
