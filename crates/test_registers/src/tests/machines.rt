//! The accesses of each machine, on examples.

use crate::tests::driving::{
    Count, Flag, Machine, expect_access, expect_due, expect_true, expect_value,
};
use bits_core::{Access, Bit, Shape, Side};
use register_core::{UnaryScan, WordReader, WordWriter};
use std::process::Abort;
use std::test::Fail;

// A bit of a count and a value.
type Part = (u8, bool);

// A value that is written to a count, and the bit writes that this takes.
type Write<'a> = (u64, &'a [Part]);

// An item is written to the cell by writes of these digits, and none after them.
fn expect_word_written(rt: &impl Abort, shape: &Shape, cell: u8, item: u64, digits: &[bool]) {
    if u64::from(cell) < shape.capacity() && shape.fits(item) {
        let mut writer = WordWriter::new(shape, u64::from(cell), item);
        for (digit, value) in (0..64u8).zip(digits.iter()) {
            let access = Access::Write(Bit::Cell(cell, digit), *value);
            expect_access(rt, &mut writer, access, false);
        }
        expect_due(rt, writer.due(), None);
    } else {
        expect_true(rt, false);
    }
}

// Reads of these digits make the item, which is returned once all have been read.
fn expect_word_read(rt: &impl Abort, shape: &Shape, cell: u8, digits: &[bool], item: u64) {
    if u64::from(cell) < shape.capacity() {
        let mut reader = WordReader::new(shape, u64::from(cell));
        for (digit, value) in (0..64u8).zip(digits.iter()) {
            expect_value(rt, reader.value(), None);
            let access = Access::Read(Bit::Cell(cell, digit));
            expect_access(rt, &mut reader, access, *value);
        }
        expect_due(rt, reader.due(), None);
        expect_value(rt, reader.value(), Some(item));
    } else {
        expect_true(rt, false);
    }
}

#[test]
fn words_are_written_digit_by_digit_upwards(rt: HostRuntime) -> Result<(), Fail> {
    expect_word_written(&rt, &Shape::new(1, 3, 3)?, 0, 6, &[false, true, true]);
    expect_word_written(&rt, &Shape::new(2, 4, 1)?, 1, 0, &[false]);
    // the largest width and cell
    let mut digits = [true; 64];
    digits[0] = false;
    expect_word_written(&rt, &Shape::new(64, 256, 64)?, 63, u64::MAX - 1, &digits);
    Ok(())
}

#[test]
fn words_are_read_digit_by_digit_upwards(rt: HostRuntime) -> Result<(), Fail> {
    expect_word_read(&rt, &Shape::new(1, 3, 3)?, 0, &[false, true, true], 6);
    expect_word_read(&rt, &Shape::new(64, 256, 64)?, 63, &[true; 64], u64::MAX);
    Ok(())
}

// The value, and whether the bit is written.
static LOGICAL: [(bool, bool); 6] = [
    (false, false),
    (true, true),
    (true, false),
    (false, true),
    (false, false),
    (true, true),
];

#[test]
fn an_unchanged_write_has_no_access(rt: HostRuntime) {
    let mut writer = Flag::new(Bit::X, false);
    for (value, is_written) in LOGICAL.iter() {
        writer.write(*value);
        if *is_written {
            expect_access(&rt, &mut writer, Access::Write(Bit::X, *value), true);
        }
        expect_due(&rt, writer.due(), None);
    }
}

// The bit of the count that the side writes.
fn bit_of(side: Side, number: u8) -> Bit {
    match side {
        Side::P => Bit::S(number),
        Side::C => Bit::R(number),
    }
}

// A new count of the side is written each of the values by these bit writes and no others.
fn expect_written(rt: &impl Abort, shape: &Shape, side: Side, writes: &[Write]) {
    let mut count = Count::new(shape, side);
    for (value, parts) in writes {
        expect_due(rt, count.due(), None);
        count.write(*value);
        for (number, bit_value) in parts.iter() {
            let access = Access::Write(bit_of(side, *number), *bit_value);
            expect_access(rt, &mut count, access, true);
        }
    }
    expect_due(rt, count.due(), None);
}

static SET_THEN_CLEARED: [Write<'static>; 4] = [
    (2, &[(2, true), (0, false)]),
    (0, &[(0, true)]),
    (2, &[(0, false)]),
    (1, &[(1, true)]),
];

#[test]
fn a_count_is_set_and_then_cleared_downwards(rt: HostRuntime) -> Result<(), Fail> {
    expect_written(&rt, &Shape::new(1, 3, 1)?, Side::P, &SET_THEN_CLEARED);
    Ok(())
}

// Each value over what the last ones left.
static OVER_OTHERS: [Write<'static>; 5] = [
    (2, &[(2, true), (0, false)]),
    (0, &[(0, true)]),
    (1, &[(1, true), (0, false)]),
    (0, &[(0, true)]),
    (3, &[(3, true), (2, false), (1, false), (0, false)]),
];

#[test]
fn a_value_is_written_over_what_the_last_ones_left(rt: HostRuntime) -> Result<(), Fail> {
    expect_written(&rt, &Shape::new(2, 4, 1)?, Side::P, &OVER_OTHERS);
    Ok(())
}

// Bit 1 is still set at the end, so two are cleared, from the highest down.
#[test]
fn the_consumer_writes_its_own_count(rt: HostRuntime) -> Result<(), Fail> {
    let writes: [Write; 3] = [
        (1, &[(1, true), (0, false)]),
        (0, &[(0, true)]),
        (3, &[(3, true), (1, false), (0, false)]),
    ];
    expect_written(&rt, &Shape::new(1, 4, 1)?, Side::C, &writes);
    Ok(())
}

#[test]
fn the_largest_count_is_written(rt: HostRuntime) -> Result<(), Fail> {
    let largest: [Write; 1] = [(255, &[(255, true), (0, false)])];
    expect_written(&rt, &Shape::new(64, 256, 64)?, Side::P, &largest);
    Ok(())
}

// A scan by the side reads 0 in all bits below the value and 1 in its bit. Its last bit is expected to be 1.
fn expect_scan(rt: &impl Abort, shape: &Shape, side: Side, writer: Side, value: u8) {
    let mut scan = UnaryScan::new(shape, side);
    for number in 0..=value {
        expect_value(rt, scan.value(), None);
        let is_last = u64::from(number) + 1 == shape.modulus();
        expect_true(rt, scan.expects_one() == is_last);
        let access = Access::Read(bit_of(writer, number));
        expect_access(rt, &mut scan, access, number == value);
    }
    expect_due(rt, scan.due(), None);
    expect_true(rt, !scan.expects_one());
    expect_value(rt, scan.value(), Some(u64::from(value)));
}

#[test]
fn a_scan_reads_until_a_one(rt: HostRuntime) -> Result<(), Fail> {
    let small = Shape::new(1, 3, 1)?;
    expect_scan(&rt, &small, Side::C, Side::P, 2);
    expect_scan(&rt, &small, Side::C, Side::P, 1);
    expect_scan(&rt, &small, Side::P, Side::C, 0);
    let large = Shape::new(64, 256, 64)?;
    expect_scan(&rt, &large, Side::C, Side::P, 255);
    expect_scan(&rt, &large, Side::P, Side::C, 254);
    Ok(())
}
