//! Rings made with each growth refused in turn.

use crate::tests::expects::{Kind, Numbers, expect, shape_of};
use bits_core::Shape;
use refusing::Refusing;
use ring_run::{CounterRing, FlickerRing, RunFault};
use std::alloc::{AllocGlobal, Allocator};
use std::process::Abort;
use std::test::Fail;

// How the allocator refuses a ring of the shape.
fn refusal<A: Allocator + Copy>(alloc: A, kind: Kind, shape: Shape) -> Option<RunFault> {
    match kind {
        Kind::Flicker => FlickerRing::new(alloc, shape).err(),
        Kind::Counter => CounterRing::new(alloc, shape).err(),
    }
}

// Makes a ring of the shape, each growth refused in turn, and then none.
fn expect_refused_rings(rt: &(impl Abort + AllocGlobal), kind: Kind, numbers: &Numbers) {
    let shape = shape_of(rt, numbers);
    for allocations in 0..20 {
        let alloc = Refusing::after(rt.alloc(), allocations);
        let refused = refusal(&alloc, kind, shape);
        if !alloc.has_refused() {
            let is_made = refused.is_none() && 1 <= allocations;
            expect(rt, is_made, "the last growth", kind.name());
            return;
        }
        let is_refused = refused == Some(RunFault::OutOfMemory);
        expect(rt, is_refused, "a growth", kind.name());
    }
    expect(rt, false, "each growth", kind.name());
}

const SHAPES: [Numbers; 3] = [[1, 3, 1, 1], [3, 5, 6, 1], [64, 256, 64, 1]];

#[test]
fn a_ring_is_refused_at_each_growth(rt: HostRuntime) {
    for numbers in SHAPES.iter() {
        expect_refused_rings(&rt, Kind::Flicker, numbers);
        expect_refused_rings(&rt, Kind::Counter, numbers);
    }
}

#[test]
fn the_fault_has_its_number_and_words(rt: HostRuntime) -> Result<(), Fail> {
    let fault = RunFault::OutOfMemory;
    let words = fault.to_string(rt.alloc())?;
    assert!(rt; fault.number() == 1 && words.as_str() == "out of memory");
    Ok(())
}
