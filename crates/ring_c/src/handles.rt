//! The handles of C.
ghost use Rattle.std.specs.Prelude.{◌≡◌, IfSome, IsNone, Some, is_some};

use crate::raws::Raw;
use crate::slots::{PutterSlot, TakerSlot};
use ring_held::{HeldPutter, HeldTaker};
use std::alloc::Global;
use std::mem;

/// The producer's end of a ring, as C holds it: its bytes are 0 before [`ring_open`](crate::ring_open), and from then on only
/// this library writes them.
#[repr(C)]
#[derive(Drop)]
pub struct RingPutter {
    is_open: bool,
    pub slot: PutterSlot,
    ghost told: { is_open ≡ is_some slot.value },
}

/// The consumer's end of a ring, in the same way.
#[repr(C)]
#[derive(Drop)]
pub struct RingTaker {
    is_open: bool,
    pub slot: TakerSlot,
    ghost told: { is_open ≡ is_some slot.value },
}

impl RingPutter {
    // Whether the handle has an end.
    #[inline(always)]
    pub(crate) fn is_open(&mut self) -> bool
        ensures is { result ≡ is_some self.old.slot.value }
        ensures same { self.new ≡ self.old }
    {
        self.is_open
    }

    // Takes its end out of it, if it has one.
    #[inline(always)]
    pub(crate) fn take(&mut self, alloc: Global) -> Option<Box<HeldPutter<Global>>>
        ensures some { IfSome result (λ b. self.old.slot.value ≡ Some b.value) }
        ensures none { IsNone result → self.old.slot.value ≡ None }
        ensures after { self.new.slot.value ≡ None }
    {
        if !self.is_open {
            return None;
        }
        let slot = mem::replace(&mut self.slot, PutterSlot::none(alloc));
        self.is_open = false;
        Some(slot.into_raw().into_box())
    }

    // Puts an end into it.
    #[inline(always)]
    pub(crate) fn keep(&mut self, end: Box<HeldPutter<Global>>)
        ensures { self.new.slot.value ≡ Some end.value }
    {
        self.slot = PutterSlot::of_raw(Raw::of(end));
        self.is_open = true;
    }
}

impl RingTaker {
    // Whether the handle has an end.
    #[inline(always)]
    pub(crate) fn is_open(&mut self) -> bool
        ensures is { result ≡ is_some self.old.slot.value }
        ensures same { self.new ≡ self.old }
    {
        self.is_open
    }

    // Takes its end out of it, if it has one.
    #[inline(always)]
    pub(crate) fn take(&mut self, alloc: Global) -> Option<Box<HeldTaker<Global>>>
        ensures some { IfSome result (λ b. self.old.slot.value ≡ Some b.value) }
        ensures none { IsNone result → self.old.slot.value ≡ None }
        ensures after { self.new.slot.value ≡ None }
    {
        if !self.is_open {
            return None;
        }
        let slot = mem::replace(&mut self.slot, TakerSlot::none(alloc));
        self.is_open = false;
        Some(slot.into_raw().into_box())
    }

    // Puts an end into it.
    #[inline(always)]
    pub(crate) fn keep(&mut self, end: Box<HeldTaker<Global>>)
        ensures { self.new.slot.value ≡ Some end.value }
    {
        self.slot = TakerSlot::of_raw(Raw::of(end));
        self.is_open = true;
    }
}

// A type whose values may go to another thread.
fn may_cross<T: Send>() {}

// C may hand each handle to another thread.
pub(crate) fn handles_may_cross() {
    may_cross::<RingPutter>();
    may_cross::<RingTaker>();
}
