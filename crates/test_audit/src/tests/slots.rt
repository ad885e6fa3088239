//! The audit of programs over slots, and with too few of them.

use crate::tests::expects::{Expected, is_found_in};
use crate::tests::traces::PLAIN_PATH;
use ring_audit::{AuditFault, audit_into};
use std::alloc::AllocGlobal;
use std::process::Abort;
use std::test::Fail;
use trace_text::read_trace;

// Whether one item is found, in this many slots; `None` if they are too few.
fn found_in(
    rt: &(impl Abort + AllocGlobal),
    put: &mut [u64],
    taken: &mut [u64],
) -> Result<Option<bool>, Fail> {
    let (shape, events) = read_trace(rt.alloc(), PLAIN_PATH.as_bytes())?;
    match audit_into(&shape, events.as_slice(), put, taken) {
        Ok(found) => Ok(Some(is_found_in(&found, put, taken, Expected::Lawful(&[1], &[1], false)))),
        Err(fault) => {
            assert!(rt; fault == AuditFault::OutOfMemory);
            Ok(None)
        }
    }
}

#[test]
fn items_lie_in_slots_and_too_few_are_refused(rt: HostRuntime) -> Result<(), Fail> {
    assert!(rt; found_in(&rt, &mut [7, 7], &mut [7])? == Some(true));
    assert!(rt; found_in(&rt, &mut [7], &mut [7])? == Some(true));
    assert!(rt; found_in(&rt, &mut [], &mut [7])?.is_none());
    assert!(rt; found_in(&rt, &mut [7], &mut [])?.is_none());
    Ok(())
}
