//! Scripts, and what their reports say.
use bits_core::{Event, Store, Verdict, audit_bits};
use ring_player::{Report, Script, play};
use std::alloc::{AllocError, AllocGlobal, Allocator, Global};
use std::process::Abort;

/// A shape: capacity, modulus, width, batch, take batch.
pub(crate) type Numbers = [u64; 5];

/// What a script has besides its shape: items, takes, close, schedule, oracle.
pub(crate) type Asked<'a> = (&'a str, u64, bool, &'a str, &'a str);

/// What a report says: events, items put, items taken, Closed, and how often full, empty and flicker.
pub(crate) type Wanted<'a> = (usize, &'a [u64], &'a [u64], bool, [u64; 3]);

/// A name, a script and its report.
pub(crate) type Case<'a> = (&'a str, Numbers, Asked<'a>, Wanted<'a>);

/// One cell of one bit, and puts and takes of one item.
pub const ONE: Numbers = [1, 3, 1, 1, 1];

fn text_of(alloc: Global, shape: &Numbers, asked: &Asked) -> Result<String, AllocError> {
    let [capacity, modulus, width, batch, take_batch] = *shape;
    let (items, takes, close, schedule, oracle) = *asked;
    let numbers = format!(in alloc;
        "\"capacity\":{capacity},\"modulus\":{modulus},\"width\":{width},\"batch\":{batch}"
    )?;
    let takes_of = format!(in alloc; "\"take_batch\":{take_batch}")?;
    let calls = format!(in alloc; "\"items\":{items},\"takes\":{takes},\"close\":{close}")?;
    let texts = format!(in alloc; "\"schedule\":\"{schedule}\",\"oracle\":\"{oracle}\"")?;
    format!(in alloc; "{{{numbers},{takes_of},{calls},{texts}}}")
}

/// The script, its lists in memory of the allocator. (A `?` is expensive to prove, so if memory or a script is lacking the test ends here.)
pub fn script_of<A: Allocator + Copy>(
    rt: &(impl Abort + AllocGlobal),
    lists: A,
    shape: &Numbers,
    asked: &Asked,
) -> Script<A> {
    let text = text_of(rt.alloc(), shape, asked).expect(rt, "memory for the text");
    let script = Script::read_in(lists, rt.alloc(), text.as_bytes());
    script.expect(rt, "a script")
}

/// It holds; otherwise the message says what fails in which case. (A message is expensive to prove, so this one serves all.)
pub fn expect(rt: &impl Abort, holds: bool, what: &str, case: &str) {
    assert!(rt; holds, "{what} of {case}");
}

/// The report is as expected, and its history is lawful.
pub fn expect_report<A: Allocator, E: Store<Event>, T: Store<u64>>(
    rt: &impl Abort,
    name: &str,
    script: &Script<A>,
    report: &Report<E, T>,
    wanted: &Wanted,
) {
    let found: Wanted = (
        report.history.as_slice().len(),
        report.put,
        report.taken.as_slice(),
        report.told,
        [report.full, report.empty, report.flicker],
    );
    expect(rt, found == *wanted, "report", name);
    let verdict = audit_bits(&script.shape(), report.history.as_slice());
    expect(rt, verdict == Verdict::Lawful, "history", name);
}

/// Each script gives its report.
pub fn expect_reports(rt: &(impl Abort + AllocGlobal), cases: &[Case]) {
    for (name, shape, asked, wanted) in cases {
        let script = script_of(rt, rt.alloc(), shape, asked);
        let report = play(rt.alloc(), &script).expect(rt, "memory for the play");
        expect_report(rt, name, &script, &report, wanted);
    }
}
