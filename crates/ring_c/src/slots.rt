//! What a handle of C stores of its end: the address of its box.
ghost use Rattle.std.specs.Prelude.{◌≡◌, IsSome};
ghost use Rattle.ring_c.specs.Owned.{KeptEnd, kept_end_coded, putter_owns, taker_owns};

use crate::raws::Raw;
use ring_held::{HeldPutter, HeldTaker};
use std::alloc::Global;
use std::marker::Model;
use std::ptr::null_mut;

/// The address of a putter's box, which the slot owns, or null.
#[repr(C)]
#[derive(Drop)]
pub struct PutterSlot {
    at: *mut u8,
    alloc: Global,
    pub ghost value: { KeptEnd } by { kept_end_coded },
}

impl Model for PutterSlot {
    ghost also_owns = { λ s. putter_owns s.alloc s.at s.value };
}

impl PutterSlot {
    // A slot with no box.
    pub fn none(alloc: Global) -> PutterSlot
        ensures { result.value ≡ None }
    {
        PutterSlot {
            at: null_mut(),
            alloc,
        }
    }

    // The slot of this box.
    pub fn of_raw(raw: Raw<HeldPutter<Global>, Global>) -> PutterSlot
        ensures { result.value ≡ Some raw.value }
    {
        let Raw { at, alloc } = raw;
        PutterSlot {
            at: at as *mut u8,
            alloc,
        }
    }

    // The box of the slot, which has one.
    pub fn into_raw(self) -> Raw<HeldPutter<Global>, Global>
        requires { IsSome self.value }
        ensures { self.value ≡ Some result.value }
    {
        let PutterSlot { at, alloc } = self;
        Raw {
            at: at as *mut HeldPutter<Global>,
            alloc,
        }
    }
}

/// The address of a taker's box, which the slot owns, or null.
#[repr(C)]
#[derive(Drop)]
pub struct TakerSlot {
    at: *mut u8,
    alloc: Global,
    pub ghost value: { KeptEnd } by { kept_end_coded },
}

impl Model for TakerSlot {
    ghost also_owns = { λ s. taker_owns s.alloc s.at s.value };
}

impl TakerSlot {
    // A slot with no box.
    pub fn none(alloc: Global) -> TakerSlot
        ensures { result.value ≡ None }
    {
        TakerSlot {
            at: null_mut(),
            alloc,
        }
    }

    // The slot of this box.
    pub fn of_raw(raw: Raw<HeldTaker<Global>, Global>) -> TakerSlot
        ensures { result.value ≡ Some raw.value }
    {
        let Raw { at, alloc } = raw;
        TakerSlot {
            at: at as *mut u8,
            alloc,
        }
    }

    // The box of the slot, which has one.
    pub fn into_raw(self) -> Raw<HeldTaker<Global>, Global>
        requires { IsSome self.value }
        ensures { self.value ≡ Some result.value }
    {
        let TakerSlot { at, alloc } = self;
        Raw {
            at: at as *mut HeldTaker<Global>,
            alloc,
        }
    }
}

unsafe impl Send for PutterSlot {}

unsafe impl Send for TakerSlot {}
