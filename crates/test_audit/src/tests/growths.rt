//! The audit of programs with each growth refused in turn.

use crate::tests::expects::{Expected, is_found};
use bits_core::{Event, Shape};
use refusing::Refusing;
use ring_audit::{AuditFault, audit};
use std::alloc::AllocGlobal;
use std::process::Abort;
use std::test::Fail;
use trace_text::read_trace;

// An item is put and taken.
const TRACE: &[u8] =
    b"shape 1 3 1\nP read r0\nP got r0 1\nP write c0.0 1\nP wrote c0.0\nP write s1 1\nP wrote s1\nP write s0 0\nC read s0\nC got s0 0\nC read s1\nC got s1 1\nC read c0.0\nC got c0.0 1\nC write r1 1\nC wrote r1\nC write r0 0\nC wrote r0\n";

// Whether the audit fails, and whether an allocation was refused, if this many are granted; one that does not fail finds this.
fn audit_with(
    rt: &(impl Abort + AllocGlobal),
    shape: &Shape,
    events: &[Event],
    allocations: u64,
    expected: Expected,
) -> (bool, bool) {
    let alloc = Refusing::after(rt.alloc(), allocations);
    let has_failed = match audit(&alloc, shape, events) {
        Err(fault) => {
            assert!(rt; alloc.has_refused() && fault == AuditFault::OutOfMemory);
            true
        }
        Ok(finding) => {
            assert!(rt; is_found(&finding, expected));
            false
        }
    };
    (has_failed, alloc.has_refused())
}

#[test]
fn each_growth_of_an_audit_may_be_refused(rt: HostRuntime) -> Result<(), Fail> {
    let (shape, events) = read_trace(rt.alloc(), TRACE)?;
    let mut refused: u64 = 0;
    let mut granted: u64 = 0;
    for allocations in 0..10 {
        let item = Expected::Lawful(&[1], &[1], false);
        let (has_failed, has_refused) = audit_with(
            &rt,
            &shape,
            events.as_slice(),
            allocations,
            item,
        );
        if has_failed {
            refused = refused.saturating_add(1);
        } else if !has_refused {
            granted = granted.saturating_add(1);
        }
    }
    // the first growth of each list
    assert!(rt; refused == 2 && granted == 8);
    Ok(())
}

#[test]
fn a_history_without_items_needs_no_memory(rt: HostRuntime) -> Result<(), Fail> {
    let (shape, events) = read_trace(rt.alloc(), b"shape 1 3 1\nP write x 1\nP wrote x\n")?;
    let none = Expected::Lawful(&[], &[], false);
    let (has_failed, has_refused) = audit_with(&rt, &shape, events.as_slice(), 0, none);
    assert!(rt; !has_failed && !has_refused);
    Ok(())
}

#[test]
fn the_fault_has_its_number_and_words(rt: HostRuntime) -> Result<(), Fail> {
    let words = format!(in rt.alloc(); "{}", AuditFault::OutOfMemory)?;
    assert!(rt; words.as_str() == "out of memory");
    assert!(rt; AuditFault::OutOfMemory.number() == 1);
    Ok(())
}
