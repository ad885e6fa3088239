//! What the tests of `ring_audit` expect, and how a failure is reported.

use bits_core::{Event, Kind, Shape};
use ring_audit::{Finding, Found, audit, audit_into};
use std::alloc::{AllocGlobal, Allocator};
use std::process::Abort;
use std::test::Fail;

/// The expected finding: the items put, the items taken and whether a take returned Closed, or the place of a fault and its kind.
#[derive(Clone, Copy)]
pub(crate) enum Expected<'a> {
    Lawful(&'a [u64], &'a [u64], bool),
    Fault(usize, Kind),
}

/// Whether this was found.
pub fn is_found<A: Allocator>(finding: &Finding<A>, expected: Expected) -> bool {
    match (finding, expected) {
        (Finding::Lawful { put, taken, told }, Expected::Lawful(items, got, end)) => {
            put.as_slice() == items && taken.as_slice() == got && *told == end
        }
        (Finding::Fault { place, kind }, Expected::Fault(at, why)) => *place == at && *kind == why,
        _ => false,
    }
}

/// Whether this was found, with the items in the first slots.
pub fn is_found_in(found: &Found, put: &[u64], taken: &[u64], expected: Expected) -> bool {
    match (found, expected) {
        (
            Found::Lawful {
                put: puts,
                taken: takes,
                told,
            },
            Expected::Lawful(items, got, end),
        ) => put.get(..*puts) == Some(items) && taken.get(..*takes) == Some(got) && *told == end,
        (Found::Fault { place, kind }, Expected::Fault(at, why)) => *place == at && *kind == why,
        _ => false,
    }
}

// How many items of each kind there are slots for.
const SLOTS: usize = 64;

// The audit in slots finds it too, unless there are too few.
fn expect_found_in_slots(rt: &impl Abort, shape: &Shape, events: &[Event], expected: Expected) {
    let mut put = [0; SLOTS];
    let mut taken = [0; SLOTS];
    let found = audit_into(shape, events, &mut put, &mut taken);
    match found {
        Ok(found) => assert!(rt; is_found_in(&found, &put, &taken, expected)),
        Err(_) => assert!(rt; events.len() > SLOTS),
    }
}

/// The audit finds this of the events.
pub fn expect_found(
    rt: &(impl Abort + AllocGlobal),
    shape: &Shape,
    events: &[Event],
    expected: Expected,
) -> Result<(), Fail> {
    let finding = audit(rt.alloc(), shape, events)?;
    assert!(rt; is_found(&finding, expected));
    expect_found_in_slots(rt, shape, events, expected);
    Ok(())
}
