//! The auditor of calls with each growth refused in turn, and the numbers of its faults.

use queue_calls::{CallAuditor, Event, Fault, RecordingFault, Reply, exactly};
use refusing::Refusing;
use std::alloc::AllocGlobal;
use std::process::Abort;
use std::test::Fail;

#[test]
fn a_refused_growth_leaves_the_auditor(rt: HostRuntime) -> Result<(), Fail> {
    let alloc = Refusing::after(rt.alloc(), 0);
    let mut auditor = CallAuditor::new(&alloc, exactly(4));
    assert!(rt; auditor.feed(Event::PutBegins(&[1, 2, 3])) == Err(Fault::OutOfMemory));
    for event in [
        Event::PutBegins(&[1, 2, 3]),
        Event::PutEnds(Reply::Passed(3)),
        Event::TakeBegins(2),
        Event::TakeEnds(Reply::Passed(&[1, 2])),
    ] {
        assert!(rt; auditor.feed(event) == Ok(()));
    }
    Ok(())
}

// The number of each fault of an auditor.
const FAULTS: &[(Fault, u8)] = &[
    (Fault::OutOfTurn, 1),
    (Fault::NotLinearizable, 2),
    (Fault::OutOfMemory, 3),
];

// The same for a recording.
const RECORDING_FAULTS: &[(RecordingFault, u8)] = &[
    (RecordingFault::BadLine(7), 1),
    (RecordingFault::TooLong, 2),
    (RecordingFault::OutOfMemory, 3),
];

#[test]
fn faults_have_their_numbers(rt: HostRuntime) {
    for (fault, number) in FAULTS {
        assert!(rt; fault.number() == *number);
    }
    for (fault, number) in RECORDING_FAULTS {
        assert!(rt; fault.number() == *number);
    }
}
