//! The audit of programs on traces: lists, faults, cuts.

use crate::tests::expects::{Expected, expect_found, is_found};
use bits_core::{Event, Kind, Shape};
use ring_audit::{Finding, audit};
use std::alloc::{AllocGlobal, Allocator};
use std::process::Abort;
use std::test::Fail;
use trace_text::read_trace;

// A trace, and the expected finding.
type Case<'a> = (&'a str, Expected<'a>);

fn expect_finding(
    rt: &(impl Abort + AllocGlobal),
    text: &str,
    expected: Expected,
) -> Result<(), Fail> {
    let (shape, events) = read_trace(rt.alloc(), text.as_bytes())?;
    expect_found(rt, &shape, events.as_slice(), expected)
}

fn expect_findings(rt: &(impl Abort + AllocGlobal), cases: &[Case]) -> Result<(), Fail> {
    for (text, expected) in cases {
        expect_finding(rt, text, *expected)?;
    }
    Ok(())
}

// One item is put and taken.
pub const PLAIN_PATH: &str =
    "shape 1 3 1\nP read r0\nP got r0 1\nP write c0.0 1\nP wrote c0.0\nP write s1 1\nP wrote s1\nP write s0 0\nP wrote s0\nC read s0\nC got s0 0\nC read s1\nC got s1 1\nC read c0.0\nC got c0.0 1\nC write r1 1\nC wrote r1\nC write r0 0\nC wrote r0\n";

// The count write of the one put is left open; a take finds it, and the next one sees the old count.
const COUNT_WRITE_OPEN: &str =
    "shape 1 3 1\nP read r0\nP got r0 1\nP write c0.0 1\nP wrote c0.0\nP write s1 1\nP wrote s1\nP write s0 0\nC read s0\nC got s0 0\nC read s1\nC got s1 1\nC read c0.0\nC got c0.0 1\nC write r1 1\nC wrote r1\nC write r0 0\nC wrote r0\nC read s0\nC got s0 1\nC read x\nC got x 0\n";

static ITEMS: [Case<'static>; 2] = [
    (PLAIN_PATH, Expected::Lawful(&[1], &[1], false)),
    (COUNT_WRITE_OPEN, Expected::Lawful(&[1], &[1], false)),
];

#[test]
fn the_lists_are_those_of_the_calls(rt: HostRuntime) -> Result<(), Fail> {
    expect_findings(&rt, &ITEMS)
}

// A trace, and the place of the event that no call makes.
static NO_PROGRAM: [(&str, usize); 6] = [
    // two reads of s0 during a write of it that no put makes
    (
        "shape 1 3 1\nP write s0 0\nC read s0\nC got s0 1\nC read s0\nC got s0 0\nP wrote s0\nC read s0\nC got s0 0\n",
        0,
    ),
    // the count before the cell
    ("shape 1 3 1\nP read r0\nP got r0 1\nP write s1 1\n", 2),
    // a take that reads r0, as a put does, would be of the wrong side; one that reads x first is not of the program
    ("shape 1 3 1\nC read x\n", 0),
    // a 0 read of the close bit ends the take, which scans no more
    (
        "shape 1 3 1\nC read s0\nC got s0 1\nC read x\nC got x 0\nC read s1\n",
        4,
    ),
    // the close writes 1
    ("shape 1 3 1\nP write x 0\n", 0),
    // the second put scans from r0 on
    (
        "shape 1 3 1\nP read r0\nP got r0 1\nP write c0.0 1\nP wrote c0.0\nP write s1 1\nP wrote s1\nP write s0 0\nP wrote s0\nP write c0.0 1\n",
        8,
    ),
];

#[test]
fn an_event_that_no_call_makes_is_not_of_the_program(rt: HostRuntime) -> Result<(), Fail> {
    for (text, place) in NO_PROGRAM.iter() {
        expect_finding(&rt, text, Expected::Fault(*place, Kind::NotProgram))?;
    }
    Ok(())
}

static CLOSES: [Case<'static>; 5] = [
    (
        "shape 1 3 1\nP write x 1\nP wrote x\nP read r0\n",
        Expected::Fault(2, Kind::NotProgram),
    ),
    (
        "shape 1 3 1\nP write x 1\nP wrote x\n",
        Expected::Lawful(&[], &[], false),
    ),
    // a take returns Closed while the close bit is being written
    (
        "shape 1 3 1\nP write x 1\nC read s0\nC got s0 1\nC read x\nC got x 1\nC read s0\nC got s0 1\n",
        Expected::Lawful(&[], &[], true),
    ),
    // cut before it returns
    (
        "shape 1 3 1\nP write x 1\nC read s0\nC got s0 1\nC read x\nC got x 1\nC read s0\n",
        Expected::Lawful(&[], &[], false),
    ),
    // no take follows
    (
        "shape 1 3 1\nP write x 1\nC read s0\nC got s0 1\nC read x\nC got x 1\nC read s0\nC got s0 1\nC read s0\n",
        Expected::Fault(7, Kind::NotProgram),
    ),
];

#[test]
fn nothing_comes_after_a_close_or_after_closed(rt: HostRuntime) -> Result<(), Fail> {
    expect_findings(&rt, &CLOSES)
}

static BOTH_FAULTS: [Case<'static>; 4] = [
    // the bits are at fault first
    (
        "shape 1 3 1\nP read r0\nP got r0 0\nP write s1 1\n",
        Expected::Fault(1, Kind::NotPermitted),
    ),
    // the program is
    (
        "shape 1 3 1\nC read x\nC got x 1\n",
        Expected::Fault(0, Kind::NotProgram),
    ),
    // both are at the same event, which the consumer may not make, and a take does not make
    (
        "shape 1 3 1\nC write s0 0\n",
        Expected::Fault(0, Kind::WrongSide),
    ),
    (
        "shape 1 3 1\nP read r0\nP write x 0\n",
        Expected::Fault(1, Kind::OutOfTurn),
    ),
];

#[test]
fn a_fault_of_the_bits_is_told_where_both_are_at_fault(rt: HostRuntime) -> Result<(), Fail> {
    expect_findings(&rt, &BOTH_FAULTS)
}

// Three items are put under one count write, whose write of s0 is left open; three takes find them, and one finds none.
const THREE_ITEMS: &str =
    "P read r0\nP got r0 1\nP write c0.0 1\nP wrote c0.0\nP write c1.0 0\nP wrote c1.0\nP write c2.0 1\nP wrote c2.0\nP write s3 1\nP wrote s3\nP write s0 0\nC read s0\nC got s0 0\nC read s1\nC got s1 0\nC read s2\nC got s2 0\nC read s3\nC got s3 1\nC read c0.0\nC got c0.0 1\nC write r1 1\nC wrote r1\nC write r0 0\nC wrote r0\nC read s0\nC got s0 0\nC read s1\nC got s1 0\nC read s2\nC got s2 0\nC read s3\nC got s3 1\nC read c1.0\nC got c1.0 0\nC write r2 1\nC wrote r2\nC write r1 0\nC wrote r1\nC read s0\nC got s0 0\nC read s1\nC got s1 0\nC read s2\nC got s2 0\nC read s3\nC got s3 1\nC read c2.0\nC got c2.0 1\nC write r3 1\nC wrote r3\nC write r2 0\nC wrote r2\nC read s0\nC got s0 1\nC read x\nC got x 0\n";

// With this first line the three items are found.
fn expect_three(
    rt: &(impl Abort + AllocGlobal),
    first: &str,
    expected: Expected,
) -> Result<(), Fail> {
    let mut text = String::from_str(rt.alloc(), first)?;
    text.push_str(THREE_ITEMS)?;
    expect_finding(rt, text.as_str(), expected)
}

#[test]
fn a_batch_is_of_the_program_of_its_batch_alone(rt: HostRuntime) -> Result<(), Fail> {
    expect_three(
        &rt,
        "shape 3 7 1 3\n",
        Expected::Lawful(&[1, 0, 1], &[1, 0, 1], false),
    )?;
    // with batch 1 the second word is not of the program
    expect_three(&rt, "shape 3 7 1\n", Expected::Fault(4, Kind::NotProgram))
}

// An item is put once its count write has begun, with event 4, and taken once its take has ended, with event 16.
fn expect_beginning(
    rt: &(impl Abort + AllocGlobal),
    shape: &Shape,
    events: &[Event],
) -> Result<(), Fail> {
    let put: &[u64] = if events.len() > 4 { &[1] } else { &[] };
    let taken: &[u64] = if events.len() > 16 { &[1] } else { &[] };
    expect_found(rt, shape, events, Expected::Lawful(put, taken, false))
}

#[test]
fn a_trace_cut_after_any_line_has_the_lists_of_that_beginning(rt: HostRuntime) -> Result<(), Fail> {
    let (shape, events) = read_trace(rt.alloc(), COUNT_WRITE_OPEN.as_bytes())?;
    let mut beginnings: u64 = 0;
    for length in 0..22 {
        if length <= events.len() {
            expect_beginning(&rt, &shape, &events[..length])?;
            beginnings = beginnings.saturating_add(1);
        }
    }
    assert!(rt; beginnings == 22);
    Ok(())
}

// The events, with the one at a place left out, doubled, or exchanged with the next.
#[derive(Clone, Copy)]
enum Change {
    LeftOut,
    Twice,
    Exchanged,
}

fn changed<A: Allocator>(
    alloc: A,
    events: &[Event],
    place: usize,
    change: Change,
) -> Result<Vec<Event, A>, Fail> {
    let mut made = Vec::new(alloc);
    let mut late = None;
    for (i, event) in events.iter().enumerate() {
        match change {
            Change::LeftOut if i == place => {}
            Change::Exchanged if i == place => late = Some(*event),
            _ => made.push(*event)?,
        }
        match change {
            Change::Twice if i == place => made.push(*event)?,
            Change::Exchanged if i > place => {
                if let Some(other) = late {
                    made.push(other)?;
                    late = None;
                }
            }
            _ => {}
        }
    }
    if let Some(other) = late {
        made.push(other)?;
    }
    Ok(made)
}

// A place at which the changed plain path is lawful, and the items taken then; at all other places it is at fault.
type Lawful<'a> = (usize, &'a [u64]);

// Whether the place is one of these, and its items were taken.
fn is_lawful_at<A: Allocator>(place: usize, finding: &Finding<A>, places: &[Lawful]) -> bool {
    for (at, taken) in places {
        if *at == place && is_found(finding, Expected::Lawful(&[1], taken, false)) {
            return true;
        }
    }
    false
}

fn expect_lawful_places(
    rt: &(impl Abort + AllocGlobal),
    change: Change,
    places: &[Lawful],
) -> Result<(), Fail> {
    let (shape, events) = read_trace(rt.alloc(), PLAIN_PATH.as_bytes())?;
    let mut lawful: usize = 0;
    for place in 0..events.len() {
        let made = changed(rt.alloc(), events.as_slice(), place, change)?;
        let finding = audit(rt.alloc(), &shape, made.as_slice())?;
        if let Finding::Lawful { .. } = finding {
            lawful = lawful.saturating_add(1);
            assert!(rt; is_lawful_at(place, &finding, places));
        }
    }
    assert!(rt; lawful == places.len());
    Ok(())
}

#[test]
fn an_event_left_out_is_found(rt: HostRuntime) -> Result<(), Fail> {
    // without the last event of a side its last access is open
    expect_lawful_places(&rt, Change::LeftOut, &[(7, &[1]), (17, &[])])
}

#[test]
fn an_event_said_twice_is_found(rt: HostRuntime) -> Result<(), Fail> {
    expect_lawful_places(&rt, Change::Twice, &[])
}

#[test]
fn two_events_exchanged_are_found(rt: HostRuntime) -> Result<(), Fail> {
    // the take may begin before the put has ended; the last event has no next one
    expect_lawful_places(&rt, Change::Exchanged, &[(7, &[1]), (17, &[1])])
}
