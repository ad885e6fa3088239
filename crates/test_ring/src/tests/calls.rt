//! Whole calls of both sides over a memory of safe bits.

use crate::tests::runs::{
    Report, Ring, expect_due, expect_idle, expect_new_run, expect_put, expect_replies,
    expect_report, expect_run, expect_take, plain,
};
use bits_core::{Access, Act, Always, Bit, Event, Memory, Shape, Side, Store, Tape};
use ring_core::{Consumer, Producer, PutReply, TakeReply};
use std::alloc::AllocGlobal;
use std::process::Abort;
use std::test::Fail;

#[test]
fn an_item_goes_through(rt: HostRuntime) -> Result<(), Fail> {
    let mut ring = Ring::new(&Shape::new(1, 3, 1)?, &[1], 1, false);
    let schedule = [(Side::P, 8), (Side::C, 10)];
    let report = plain(18, 1, 1);
    expect_new_run(&rt, &mut ring, &mut Always(false), &schedule, report);
    Ok(())
}

#[test]
fn a_second_put_finds_one_cell_full(rt: HostRuntime) -> Result<(), Fail> {
    let mut ring = Ring::new(&Shape::new(1, 3, 1)?, &[1, 1], 0, false);
    let report = plain(10, 1, 0).full(1);
    expect_new_run(&rt, &mut ring, &mut Always(false), &[(Side::P, 10)], report);
    expect_put(&rt, &ring, Some(PutReply::Full));
    Ok(())
}

// Steps of the sides and then the events so far, the items taken, whether a take returned Closed, and the take's reply.
static SECOND_SCAN: [(&[(Side, u64)], usize, usize, bool, Option<TakeReply>); 4] = [
    // a take begins its scan; then an item is put and the ring is closed
    (&[(Side::C, 2), (Side::P, 10)], 12, 0, false, None),
    (&[(Side::C, 12)], 24, 1, false, Some(TakeReply::Item(1))),
    (&[(Side::C, 10)], 34, 1, true, Some(TakeReply::Closed)),
    // both sides are done
    (
        &[(Side::P, 3), (Side::C, 5)],
        34,
        1,
        true,
        Some(TakeReply::Closed),
    ),
];

#[test]
fn a_second_scan_finds_the_item(rt: HostRuntime) -> Result<(), Fail> {
    let shape = Shape::new(1, 3, 1)?;
    let mut memory = Memory::new(rt.alloc(), shape);
    let mut ring = Ring::new(&shape, &[1], 2, true);
    for (schedule, events, taken, told, reply) in SECOND_SCAN.iter() {
        ring.run(&rt, &mut memory, &mut Always(false), schedule);
        let report = plain(*events, 1, *taken);
        expect_report(
            &rt,
            &ring,
            &memory,
            Report {
                told: *told,
                ..report
            },
        );
        assert!(rt; ring.producer.is_closed());
        expect_take(&rt, &ring, *reply);
    }
    Ok(())
}

#[test]
fn two_cells_hold_two_items(rt: HostRuntime) -> Result<(), Fail> {
    let shape = Shape::new(2, 4, 2)?;
    let mut memory = Memory::new(rt.alloc(), shape);
    let mut ring = Ring::new(&shape, &[2, 1, 3], 1, false);
    let zeros = &mut Always(false);
    let full = plain(22, 2, 0).full(1);
    expect_run(&rt, &mut ring, &mut memory, zeros, &[(Side::P, 22)], full);
    let schedule = [(Side::C, 14), (Side::P, 12)];
    let report = plain(48, 3, 1).full(1);
    expect_run(&rt, &mut ring, &mut memory, zeros, &schedule, report);
    Ok(())
}

#[test]
fn the_largest_shape_works(rt: HostRuntime) -> Result<(), Fail> {
    let mut ring = Ring::new(&Shape::new(1, 256, 64)?, &[u64::MAX], 1, false);
    let schedule = [(Side::P, 134), (Side::C, 136)];
    let report = plain(270, 1, 1);
    expect_new_run(&rt, &mut ring, &mut Always(true), &schedule, report);
    expect_take(&rt, &ring, Some(TakeReply::Item(u64::MAX)));
    Ok(())
}

// The write to a bit of a count that an event begins: the bit's number, and the value.
fn count_write(event: &Event) -> Option<(u8, bool)> {
    match (event.bit, event.act) {
        (Bit::S(number), Act::WriteBegin(value)) => Some((number, value)),
        (Bit::R(number), Act::WriteBegin(value)) => Some((number, value)),
        _ => None,
    }
}

// The events from a place on write these bits of a count.
fn expect_count_writes<S: Store<Event>>(
    rt: &impl Abort,
    memory: &Memory<S>,
    before: usize,
    writes: &[(u8, bool)],
) {
    let mut place = 0;
    for event in memory.events().iter().skip(before) {
        if let Some(write) = count_write(event) {
            assert!(rt; writes.get(place).copied() == Some(write));
            place = place.saturating_add(1);
        }
    }
    assert!(rt; place == writes.len());
}

// One complete call of the side: this many events, and these writes to its count.
fn expect_call<S: Store<Event>>(
    rt: &impl Abort,
    ring: &mut Ring,
    memory: &mut Memory<S>,
    side: Side,
    events: usize,
    writes: &[(u8, bool)],
) {
    let before = memory.events().len();
    for _ in 0..events {
        ring.step(rt, memory, &mut Always(false), side);
    }
    expect_idle(rt, ring);
    assert!(rt; memory.events().len().checked_sub(before) == Some(events));
    expect_count_writes(rt, memory, before, writes);
}

// The complete calls of five puts and takes: the side, its events, and the writes to its count.
static FIVE_ITEMS: [(Side, usize, &[(u8, bool)]); 10] = [
    (Side::P, 8, &[(1, true), (0, false)]),
    (Side::C, 10, &[(1, true), (0, false)]),
    (Side::P, 10, &[(2, true), (1, false)]),
    (Side::C, 12, &[(2, true), (1, false)]),
    // bit 2 stays set, so the next write of 2 has the one access that clears bit 1
    (Side::P, 10, &[(0, true)]),
    (Side::C, 6, &[(0, true)]),
    (Side::P, 8, &[(1, true), (0, false)]),
    (Side::C, 10, &[(1, true), (0, false)]),
    (Side::P, 8, &[(1, false)]),
    (Side::C, 10, &[(1, false)]),
];

#[test]
fn five_items_write_the_count_two_with_one_access(rt: HostRuntime) -> Result<(), Fail> {
    let shape = Shape::new(1, 3, 1)?;
    let mut memory = Memory::new(rt.alloc(), shape);
    let mut ring = Ring::new(&shape, &[1, 0, 0, 1, 1], 5, false);
    for (side, events, writes) in FIVE_ITEMS.iter() {
        expect_call(&rt, &mut ring, &mut memory, *side, *events, writes);
    }
    expect_report(&rt, &ring, &memory, plain(92, 5, 5));
    Ok(())
}

// A run with the answers 0 and 1.
fn expect_taped_run(
    rt: &(impl Abort + AllocGlobal),
    ring: &mut Ring,
    schedule: &[(Side, u64)],
    report: Report,
) {
    expect_new_run(rt, ring, &mut Tape::new(&[false, true]), schedule, report);
}

#[test]
fn an_open_count_write_is_seen_and_then_not(rt: HostRuntime) -> Result<(), Fail> {
    let mut ring = Ring::new(&Shape::new(1, 3, 1)?, &[1], 2, false);
    // the write of 0 to s0 stays open: the first scan returns 1, and the second one the old count
    let schedule = [(Side::P, 7), (Side::C, 14)];
    let report = plain(21, 0, 1).empty(1).flickers(2);
    expect_taped_run(&rt, &mut ring, &schedule, report);
    Ok(())
}

#[test]
fn a_count_wraps_while_its_write_is_open(rt: HostRuntime) -> Result<(), Fail> {
    let mut ring = Ring::new(&Shape::new(1, 3, 1)?, &[1, 0, 1], 3, false);
    let schedule: [(Side, u64); 6] = [
        (Side::P, 8),
        (Side::C, 10),
        (Side::P, 10),
        (Side::C, 12),
        (Side::P, 9),
        (Side::C, 14),
    ];
    // the count goes from 2 to 0: the scans return 2 and then 0
    let report = plain(63, 2, 3).empty(1).flickers(2);
    expect_taped_run(&rt, &mut ring, &schedule, report);
    Ok(())
}

#[test]
fn calls_after_the_close_are_answered_at_once(rt: HostRuntime) -> Result<(), Fail> {
    let shape = Shape::new(1, 3, 1)?;
    let mut memory = Memory::new(rt.alloc(), shape);
    let mut ring = Ring::new(&shape, &[], 1, true);
    expect_replies(&rt, &ring, None, None);
    assert!(rt; !ring.producer.is_closed());
    ring.run(&rt, &mut memory, &mut Always(false), &[(Side::P, 1)]);
    assert!(rt; ring.producer.is_closed());
    ring.run(
        &rt,
        &mut memory,
        &mut Always(false),
        &[(Side::P, 1), (Side::C, 6)],
    );
    expect_report(&rt, &ring, &memory, plain(8, 0, 0).told());
    expect_calls_after_close(&rt, &mut ring);
    expect_report(&rt, &ring, &memory, plain(8, 0, 0).told());
    Ok(())
}

fn expect_calls_after_close(rt: &impl Abort, ring: &mut Ring) {
    expect_replies(rt, ring, None, Some(TakeReply::Closed));
    ring.put(1);
    expect_replies(rt, ring, Some(PutReply::Closed), Some(TakeReply::Closed));
    ring.close();
    expect_replies(rt, ring, None, Some(TakeReply::Closed));
    assert!(rt; ring.producer.is_closed());
    ring.take();
    expect_replies(rt, ring, None, Some(TakeReply::Closed));
}

#[test]
fn the_last_bit_of_a_count_expects_one(rt: HostRuntime) -> Result<(), Fail> {
    let shape = Shape::new(1, 3, 1)?;
    let mut producer = Producer::new(shape);
    assert!(rt; !producer.expects_one());
    producer.put(1);
    for bit in 0..3 {
        expect_due(&rt, producer.next(), Some(Access::Read(Bit::R(bit))));
        assert!(rt; producer.expects_one() == (bit == 2));
        if producer.next().is_some() && !producer.expects_one() {
            producer.feed(false);
        }
    }
    let mut consumer = Consumer::new(shape);
    assert!(rt; !consumer.expects_one());
    consumer.take();
    for bit in 0..3 {
        expect_due(&rt, consumer.next(), Some(Access::Read(Bit::S(bit))));
        assert!(rt; consumer.expects_one() == (bit == 2));
        if consumer.next().is_some() && !consumer.expects_one() {
            consumer.feed(false);
        }
    }
    Ok(())
}

// A clone proceeds independently, and the two machines are printed as Rust prints a struct.
#[test]
fn machines_are_cloned_and_shown(rt: HostRuntime) -> Result<(), Fail> {
    let shape = Shape::new(1, 3, 1)?;
    let mut producer = Producer::new(shape);
    producer.put(1);
    let clone = producer.clone()?;
    if producer.next().is_some() && !producer.expects_one() {
        producer.feed(false);
    }
    expect_due(&rt, producer.next(), Some(Access::Read(Bit::R(1))));
    expect_due(&rt, clone.next(), Some(Access::Read(Bit::R(0))));
    let mut consumer = Consumer::new(shape);
    let rested = consumer.clone()?;
    consumer.take();
    expect_due(&rt, consumer.next(), Some(Access::Read(Bit::S(0))));
    expect_due(&rt, rested.next(), None);
    let shown = format!(in rt.alloc(); "{producer:?} {consumer:?}")?;
    assert!(rt;
        shown
            .as_str()
            .starts_with("Producer { shape: Shape { capacity: 1,")
    );
    assert!(rt;
        shown
            .as_str()
            .contains(" Consumer { shape: Shape { capacity: 1,")
    );
    Ok(())
}
