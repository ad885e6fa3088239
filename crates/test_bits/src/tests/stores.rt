//! Events in slots and in lists.

use crate::tests::memories::{CHOICE_COUNT, CHOICES, expect_made, expect_same, expect_true, make};
use bits_core::{Act, Bit, Event, Filled, Flip, Memory, Shape, ShapeFault, Side, Store};
use std::alloc::AllocGlobal;
use std::process::Abort;
use trace_text::{TraceFault, read_trace, read_trace_into};

// What a slot holds before it is in use.
const UNUSED: Event = Event {
    side: Side::C,
    bit: Bit::X,
    act: Act::ReadBegin,
};

const TRACE: &[u8] = b"shape 1 3 1\nP write s0 1\nC read s0\nP wrote s0\nC got s0 0\n";

// The trace is read into this many slots as with an allocator, if there is room for its four events.
fn expect_read(rt: &(impl Abort + AllocGlobal), slots: &mut [Event]) {
    let (shape, events) = read_trace(rt.alloc(), TRACE).expect(rt, "a trace");
    expect_true(rt, events.len() == 4);
    let has_room = 4 <= slots.len();
    match read_trace_into(TRACE, slots) {
        Ok((shape_again, count)) => {
            expect_true(rt, has_room && count == 4 && shape_again == shape);
            expect_true(rt, events.as_slice() == &slots[..count]);
        }
        Err(fault) => {
            expect_true(rt, !has_room);
            assert_eq!(rt; fault, TraceFault::OutOfMemory);
        }
    }
}

#[test]
fn a_trace_is_read_into_slots(rt: HostRuntime) {
    let mut slots = [UNUSED; 6];
    for count in 0..=slots.len() {
        expect_read(&rt, &mut slots[..count]);
    }
    // What comes after the events is unchanged.
    expect_true(&rt, slots[4] == UNUSED && slots[5] == UNUSED);
}

// For a store of one number: whether it makes room for this many more.
fn makes_room<S: Store<u64>>(rt: &impl Abort, mut store: S, more: usize) -> bool {
    store.reserve().expect(rt, "room for one");
    store.add(7);
    let is_made = store.reserve_many(more).is_ok();
    expect_true(rt, store.as_slice() == [7].as_slice());
    is_made
}

// A store with room for this many numbers takes them all, in order.
fn takes_all<S: Store<u64>>(rt: &impl Abort, mut store: S, count: u64) {
    for number in 0..count {
        store.push(number).expect(rt, "room");
    }
    let last = store.as_slice().last();
    expect_true(rt, last.copied() == count.checked_sub(1));
}

#[test]
fn a_store_takes_two_million(rt: HostRuntime) {
    takes_all(&rt, Vec::new(rt.alloc()), 2_000_001);
}

#[test]
fn room_is_made_for_several(rt: HostRuntime) {
    let mut slots = [0; 4];
    for more in 0..=5 {
        expect_true(
            &rt,
            makes_room(&rt, Filled::new(&mut slots), more) == (more <= 3),
        );
        expect_true(&rt, makes_room(&rt, Vec::new(rt.alloc()), more));
    }
}

// The fault of the bytes, whatever room there is.
fn expect_fault(rt: &impl Abort, bytes: &[u8], slots: &mut [Event], fault: TraceFault) {
    assert_eq!(rt; read_trace_into(bytes, slots).err(), Some(fault));
}

#[test]
fn a_line_is_read_before_room_is_wanted(rt: HostRuntime) {
    let mut slots = [UNUSED; 1];
    let bad = b"shape 1 3 1\nP write s0 1\nC read s3\n";
    expect_fault(&rt, bad, &mut slots, TraceFault::BadLine(3));
    expect_fault(&rt, bad, &mut [], TraceFault::OutOfMemory);
    expect_fault(&rt, b"shape 1 3 1", &mut [], TraceFault::BadLine(1));
    expect_fault(
        &rt,
        b"shape 1 3 1\nP read s3\n",
        &mut [],
        TraceFault::BadLine(2),
    );
    expect_fault(
        &rt,
        b"shape 1 2 1\nP read s3\n",
        &mut [],
        TraceFault::BadShape(ShapeFault::Modulus),
    );
}

// How many of the choices a memory makes whose history has these slots. Next to it is one with an allocator:
// they are the same, even if no slot was left.
fn made_in(rt: &(impl Abort + AllocGlobal), slots: &mut [Event]) -> usize {
    let shape = Shape::new(1, 3, 1).expect(rt, "a shape");
    let mut memory = Memory::over(Filled::new(slots), shape);
    let mut oracle = Flip::new();
    let mut other = Memory::new(rt.alloc(), shape);
    let mut other_oracle = Flip::new();
    for choice in CHOICES.iter() {
        if make(&mut memory, &mut oracle, *choice).is_err() {
            break;
        }
        expect_made(rt, &mut other, &mut other_oracle, *choice);
        expect_same(rt, &memory, &other, (oracle, other_oracle));
    }
    expect_same(rt, &memory, &other, (oracle, other_oracle));
    memory.into_events().len()
}

#[test]
fn a_memory_fills_its_slots(rt: HostRuntime) {
    let mut slots = [UNUSED; CHOICE_COUNT];
    for count in 0..=slots.len() {
        assert_eq!(rt; made_in(&rt, &mut slots[..count]), count);
    }
}
