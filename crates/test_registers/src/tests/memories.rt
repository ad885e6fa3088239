//! Machines over a memory of safe bits, with overlapped reads.

use crate::tests::driving::{
    Count, Flag, Machine, expect_due, expect_lawful, expect_true, expect_value, step, steps,
};
use bits_core::{Access, Always, Bit, Event, Flip, Memory, Oracle, Shape, Side, Store};
use register_core::{UnaryScan, WordReader, WordWriter};
use std::process::Abort;
use std::test::Fail;

#[test]
fn an_overlapped_word_read_may_answer_anything(rt: HostRuntime) -> Result<(), Fail> {
    let shape = Shape::new(1, 3, 3)?;
    expect_true(&rt, shape.fits(6));
    if !shape.fits(6) {
        return Ok(());
    }
    let mut memory = Memory::new(rt.alloc(), shape);
    let mut ones = Always(true);
    let mut writer = WordWriter::new(&shape, 0, 6);
    let mut reader = WordReader::new(&shape, 0);
    // each digit's read overlaps its write: the digits read make 7, which was never written
    for _ in 0..6 {
        step(&rt, &mut memory, Side::P, &mut writer, &mut ones);
        step(&rt, &mut memory, Side::C, &mut reader, &mut ones);
    }
    expect_due(&rt, writer.due(), None);
    expect_value(&rt, reader.value(), Some(7));
    expect_lawful(&rt, &memory, (12, 3));
    // with no write under way the read returns the item
    let mut later = WordReader::new(&shape, 0);
    steps(&rt, &mut memory, Side::C, &mut later, &mut ones, 10);
    expect_value(&rt, later.value(), Some(6));
    expect_lawful(&rt, &memory, (18, 3));
    Ok(())
}

#[test]
fn an_unwritten_word_is_0(rt: HostRuntime) -> Result<(), Fail> {
    let shape = Shape::new(2, 4, 2)?;
    let mut memory = Memory::new(rt.alloc(), shape);
    let mut reader = WordReader::new(&shape, 1);
    steps(
        &rt,
        &mut memory,
        Side::C,
        &mut reader,
        &mut Always(true),
        10,
    );
    expect_value(&rt, reader.value(), Some(0));
    expect_lawful(&rt, &memory, (4, 0));
    Ok(())
}

// The value, and the events so far once it was written.
static LOGICAL: [(bool, usize); 5] = [(false, 0), (true, 2), (true, 2), (false, 4), (false, 4)];

#[test]
fn a_bit_is_written_where_it_changes(rt: HostRuntime) -> Result<(), Fail> {
    let shape = Shape::new(1, 3, 1)?;
    let mut memory = Memory::new(rt.alloc(), shape);
    let mut writer = Flag::new(Bit::X, false);
    for (value, events) in LOGICAL.iter() {
        writer.write(*value);
        steps(&rt, &mut memory, Side::P, &mut writer, &mut Always(true), 3);
        expect_lawful(&rt, &memory, (*events, 0));
    }
    Ok(())
}

// The values of one count, each different from the one before it; at first it is 0.
static VALUES: [u64; 16] = [2, 0, 2, 1, 3, 1, 0, 3, 2, 1, 2, 3, 0, 1, 3, 0];

// Whether the value is that of a write with a number from one to the other; number 0 is the first value.
fn is_value_of(value: u64, first: usize, last: usize) -> bool {
    let mut found = false;
    for number in first..=last {
        let written = match number.checked_sub(1) {
            None => Some(0),
            Some(place) => VALUES.get(place).copied(),
        };
        found = found || written == Some(value);
    }
    found
}

// A scan while values are written, by a schedule that the seed makes: it returns the value of a write
// whose number is at least the number ended at its start and at most the number begun at its end.
fn expect_regular_scans<S: Store<Event>, O: Oracle>(
    rt: &impl Abort,
    memory: &mut Memory<S>,
    oracle: &mut O,
    seed: u64,
) -> u64 {
    let shape = memory.shape();
    let mut count = Count::new(&shape, Side::P);
    let mut scan = UnaryScan::new(&shape, Side::C);
    let mut begun = 0;
    let mut ended = 0;
    let mut ended_at_begin = 0;
    let mut scans: u64 = 0;
    let mut state = seed;
    for _ in 0..300 {
        state = state
            .wrapping_mul(6_364_136_223_846_793_005)
            .wrapping_add(1_442_695_040_888_963_407);
        if (state >> 33) % 2 == 0 {
            if count.due().is_none()
                && let Some(value) = VALUES.get(begun)
            {
                count.write(*value);
                begun += 1;
            }
            step(rt, memory, Side::P, &mut count, oracle);
            if count.due().is_none() {
                ended = begun;
            }
        } else {
            if scan.value().is_some() {
                scan = UnaryScan::new(&shape, Side::C);
            }
            if scan.next() == Some(Access::Read(Bit::S(0))) && memory.pending(Side::C).is_none() {
                ended_at_begin = ended;
            }
            step(rt, memory, Side::C, &mut scan, oracle);
            if let Some(value) = scan.value() {
                expect_true(rt, is_value_of(value, ended_at_begin, begun));
                scans = scans.saturating_add(1);
            }
        }
    }
    expect_lawful(rt, memory, (memory.events().len(), memory.flickers()));
    scans
}

#[test]
fn scans_under_writes_are_regular(rt: HostRuntime) -> Result<(), Fail> {
    let shape = Shape::new(2, 4, 1)?;
    let mut flickers: u64 = 0;
    for seed in 0..60 {
        for kind in 0..3 {
            let mut memory = Memory::new(rt.alloc(), shape);
            let scans = match kind {
                0 => expect_regular_scans(&rt, &mut memory, &mut Flip::new(), seed),
                1 => expect_regular_scans(&rt, &mut memory, &mut Always(false), seed),
                _ => expect_regular_scans(&rt, &mut memory, &mut Always(true), seed),
            };
            expect_true(&rt, scans > 10);
            flickers = flickers.saturating_add(memory.flickers());
        }
    }
    // the schedules make many reads overlap writes
    expect_true(&rt, flickers > 1_000);
    Ok(())
}

// A complete scan, with no other step in between, returns the value.
fn expect_scanned<S: Store<Event>, O: Oracle>(
    rt: &impl Abort,
    memory: &mut Memory<S>,
    oracle: &mut O,
    value: u64,
) {
    let mut scan = UnaryScan::new(&memory.shape(), Side::C);
    steps(rt, memory, Side::C, &mut scan, oracle, 8);
    expect_value(rt, scan.value(), Some(value));
}

// The value, and the events of its write. The last write stops while its write of 0 to s1 is open.
static BACK: [(u64, u64); 5] = [(2, 4), (0, 2), (1, 4), (0, 2), (3, 5)];

// Scans during that write: its events before the scan, the access that is then due, what an overlapped read returns and the
// value that the scan returns; and all events and overlapped reads so far.
static SCANS: [(u64, Option<Access>, bool, u64, usize, u64); 4] = [
    (0, Some(Access::Write(Bit::S(1), false)), true, 0, 19, 0),
    // the new value, and then the old one
    (2, Some(Access::Write(Bit::S(0), false)), false, 3, 29, 1),
    (0, Some(Access::Write(Bit::S(0), false)), true, 0, 31, 2),
    (1, None, true, 3, 40, 2),
];

#[test]
fn scans_during_one_write_may_go_back(rt: HostRuntime) -> Result<(), Fail> {
    let shape = Shape::new(2, 4, 1)?;
    let mut memory = Memory::new(rt.alloc(), shape);
    let mut ones = Always(true);
    let mut count = Count::new(&shape, Side::P);
    for (value, events) in BACK.iter() {
        expect_due(&rt, count.due(), None);
        count.write(*value);
        steps(&rt, &mut memory, Side::P, &mut count, &mut ones, *events);
    }
    for (events, due, answer, value, total, flickers) in SCANS.iter() {
        steps(&rt, &mut memory, Side::P, &mut count, &mut ones, *events);
        expect_due(&rt, count.due(), *due);
        expect_scanned(&rt, &mut memory, &mut Always(*answer), *value);
        expect_lawful(&rt, &memory, (*total, *flickers));
    }
    Ok(())
}

// Writes of 2, 1 and 3, in which the last one clears bit 1 before bit 2.
static UPWARDS: [(Bit, bool); 5] = [
    (Bit::S(2), true),
    (Bit::S(0), false),
    (Bit::S(1), true),
    (Bit::S(3), true),
    (Bit::S(1), false),
];

#[test]
fn clears_upwards_are_not_regular(rt: HostRuntime) -> Result<(), Fail> {
    let mut memory = Memory::new(rt.alloc(), Shape::new(2, 4, 1)?);
    for (bit, value) in UPWARDS.iter() {
        let mut writer = Flag::new(*bit, !*value);
        writer.write(*value);
        steps(&rt, &mut memory, Side::P, &mut writer, &mut Always(true), 3);
    }
    // the write of 1 has ended and that of 3 has begun, and yet the scan returns 2, though nothing overlapped
    expect_scanned(&rt, &mut memory, &mut Always(true), 2);
    expect_lawful(&rt, &memory, (16, 0));
    Ok(())
}
