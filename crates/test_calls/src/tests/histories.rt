//! The verdicts on a table of histories of calls.

ghost use Rattle.std.specs.Prelude.{◌≡◌, true};
ghost use Rattle.queue_calls.specs.State.{IsProper};
ghost use Rattle.queue_calls.specs.Told.{meant};

use crate::tests::cases::{CASES, Case};
use queue_calls::{CallAuditor, Capacity, Event, Fault, Fifo, Reply, Slots};
use std::alloc::AllocGlobal;
use std::process::Abort;
use std::test::Fail;

// A queue may be of this capacity.
fn is_proper(capacity: Capacity) -> bool
    ensures proper { result ≡ true → IsProper (meant capacity) }
{
    match capacity {
        Capacity::Unbounded => true,
        Capacity::Between { full, most } => 0 < most && full <= most,
    }
}

// Feeds the events in turn: none is refused except the last one, and that as the case says.
fn is_told<Q: Fifo<u64>>(auditor: &mut CallAuditor<Q>, case: &Case) -> bool {
    let mut left = case.events.len();
    for event in case.events {
        left = left.saturating_sub(1);
        match auditor.feed(*event) {
            Ok(()) => {
                if left == 0 && case.fault.is_some() {
                    return false;
                }
            }
            Err(fault) => {
                if left > 0 || case.fault != Some(fault) {
                    return false;
                }
            }
        }
    }
    true
}

fn is_told_in_memory(rt: &HostRuntime, case: &Case) -> bool {
    is_proper(case.capacity) && is_told(&mut CallAuditor::new(rt.alloc(), case.capacity), case)
}

// As many slots as any case ever has items inside.
const ROOM: usize = 5;

fn is_told_in_slots(case: &Case) -> bool {
    let mut slots = [9; ROOM];
    let list = Slots::new(&mut slots);
    is_proper(case.capacity) && is_told(&mut CallAuditor::with(list, case.capacity), case)
}

fn expect(rt: &impl Abort, is_told: bool, name: &str) {
    assert!(rt; is_told, "{name}");
}

#[test]
fn each_history_is_told(rt: HostRuntime) -> Result<(), Fail> {
    for case in CASES.iter() {
        expect(&rt, is_told_in_memory(&rt, case), case.name);
        expect(&rt, is_told_in_slots(case), case.name);
    }
    Ok(())
}

#[test]
fn a_reply_says_what_passed(rt: HostRuntime) {
    let two: &[u64] = &[5, 6];
    assert!(rt; Reply::Passed(2).count() == 2 && Reply::PassedSome(3).count() == 3);
    assert!(rt; Reply::Passed(two).items() == two && Reply::PassedSome(two).items() == two);
    for none in [Reply::Lacked, Reply::Short, Reply::Nothing, Reply::Shut] {
        assert!(rt; none.count() == 0);
    }
    for none in [
        Reply::<&[u64]>::Lacked,
        Reply::Short,
        Reply::Nothing,
        Reply::Shut,
    ] {
        assert!(rt; none.items().is_empty());
    }
}
