//! What an audit keeps between two calls of C, as numbers.
ghost use Rattle.std.specs.Prelude.{◌≡◌};
ghost use Rattle.queue_calls_c.specs.States.{auditor_state, kept_begun, kept_capacity, kept_put, state_of, kept_take};

use queue_calls::{
    AuditorState, Begun, CallsReport, Capacity, HearingState, Offered, PutTurn, TakeTurn, Taken,
};

/// How many items the queue may hold, and the calls under way. A field that is not in use is 0.
#[repr(C)]
#[derive(Clone, Copy, PartialEq, Eq, Debug)]
pub struct Calls {
    /// How many items are inside when the queue may report that it is full, and how many at most.
    pub full: usize,
    pub most: usize,
    /// How many items the put under way offers, and how many were inside before it.
    pub offered: usize,
    pub before_put: usize,
    /// How many items the take under way asks for, and how many were inside before it.
    pub wanted: usize,
    pub before_take: usize,
    /// How many items the put that began last offered.
    pub begun_items: usize,
    /// What the producer has under way: 0 nothing, 1 a put, 2 a put that began after a close had ended, 3 a close.
    pub put: u32,
    /// What the producer began last: 0 nothing, 1 a put, 2 a close.
    pub begun: u32,
    /// Whether the queue has a bound.
    pub bounded: bool,
    /// Whether the close under way is not the first one.
    pub again: bool,
    /// Whether a take is under way, and whether a close had ended before it.
    pub take: bool,
    pub ended: bool,
    /// Whether a close has ended, or a take has returned Closed.
    pub shut: bool,
}

/// An audit of recorded calls. C sets all of it to 0 except the two lists of slots, begins it, and then leaves it alone.
#[repr(C)]
#[derive(Drop)]
pub struct Audit<'a> {
    /// Slots for the items inside, with those that a put offers; and for those taken last.
    pub offered: &'a mut [Offered],
    pub taken: &'a mut [Taken],
    /// The slot of the first one, and how many are used.
    pub offered_first: usize,
    pub offered_used: usize,
    pub taken_first: usize,
    pub taken_used: usize,
    /// How many of the items taken last are kept: as many as there are slots for them.
    pub limit: usize,
    /// The item taken last, with its line.
    pub last_taken: Taken,
    /// How many lines were heard.
    pub line: u64,
    /// The line that ended the first close, that of the first take that returned Closed, and those of the last put.
    pub ended_at: u64,
    pub told_at: u64,
    pub put_at: u64,
    pub stored_at: u64,
    pub calls: Calls,
    /// The report so far, except for the calls under way.
    pub report: CallsReport,
    /// Whether a close has ended, and whether a take returned Closed.
    pub has_ended: bool,
    pub has_told: bool,
    /// Whether the last call of a side has overlapped one of the other.
    pub put_overlaps: bool,
    pub take_overlaps: bool,
}

// The capacity of the queue.
fn kept_capacity(calls: &Calls) -> Capacity
    ensures { result ≡ kept_capacity calls.now }
{
    if calls.bounded {
        Capacity::Between {
            full: calls.full,
            most: calls.most,
        }
    } else {
        Capacity::Unbounded
    }
}

// What the producer has under way.
fn kept_put(calls: &Calls) -> PutTurn
    ensures { result ≡ kept_put calls.now }
{
    match calls.put {
        1 => PutTurn::Offers {
            offered: calls.offered,
            before: calls.before_put,
        },
        2 => PutTurn::Late {
            offered: calls.offered,
        },
        3 => PutTurn::Closes { again: calls.again },
        _ => PutTurn::Free,
    }
}

// What the consumer has under way.
fn kept_take(calls: &Calls) -> TakeTurn
    ensures { result ≡ kept_take calls.now }
{
    if calls.take {
        TakeTurn::Waits {
            wanted: calls.wanted,
            before: calls.before_take,
            ended: calls.ended,
        }
    } else {
        TakeTurn::Rests
    }
}

// What the producer began last.
pub fn kept_begun(calls: &Calls) -> Begun
    ensures { result ≡ kept_begun calls.now }
{
    match calls.begun {
        1 => Begun::Put(calls.begun_items),
        2 => Begun::Close,
        _ => Begun::Nothing,
    }
}

// What an auditor keeps, from these numbers.
pub fn auditor_state(calls: &Calls) -> AuditorState
    ensures { result ≡ auditor_state calls.now }
{
    AuditorState {
        capacity: kept_capacity(calls),
        put: kept_put(calls),
        take: kept_take(calls),
        shut: calls.shut,
    }
}

// The numbers of what an auditor keeps, and of what the producer began last.
pub fn calls_of(state: AuditorState, last: Begun) -> Calls
    ensures state { auditor_state result ≡ state }
    ensures begun { kept_begun result ≡ last }
{
    let (bounded, full, most) = match state.capacity {
        Capacity::Unbounded => (false, 0, 0),
        Capacity::Between { full, most } => (true, full, most),
    };
    let (put, offered, before_put, again) = match state.put {
        PutTurn::Free => (0, 0, 0, false),
        PutTurn::Offers { offered, before } => (1, offered, before, false),
        PutTurn::Late { offered } => (2, offered, 0, false),
        PutTurn::Closes { again } => (3, 0, 0, again),
    };
    let (take, wanted, before_take, ended) = match state.take {
        TakeTurn::Rests => (false, 0, 0, false),
        TakeTurn::Waits {
            wanted,
            before,
            ended,
        } => (true, wanted, before, ended),
    };
    let (begun, begun_items) = match last {
        Begun::Nothing => (0, 0),
        Begun::Put(items) => (1, items),
        Begun::Close => (2, 0),
    };
    Calls {
        full,
        most,
        offered,
        before_put,
        wanted,
        before_take,
        begun_items,
        put,
        begun,
        bounded,
        again,
        take,
        ended,
        shut: state.shut,
    }
}

// What a hearing keeps, from an audit.
pub fn state_of(audit: &Audit<'_>) -> HearingState
    ensures { result ≡ state_of audit.now }
{
    HearingState {
        auditor: auditor_state(&audit.calls),
        limit: audit.limit,
        last_taken: audit.last_taken,
        ended_at: if audit.has_ended {
            Some(audit.ended_at)
        } else {
            None
        },
        told_at: if audit.has_told {
            Some(audit.told_at)
        } else {
            None
        },
        put_at: audit.put_at,
        stored_at: audit.stored_at,
        report: audit.report,
        put_overlaps: audit.put_overlaps,
        take_overlaps: audit.take_overlaps,
        begun: kept_begun(&audit.calls),
    }
}

// Keeps this in an audit, whose slots and number of lines are unchanged.
pub fn keep_state(audit: &mut Audit<'_>, state: HearingState)
    ensures state { state_of audit.new ≡ state }
    ensures offered { (audit.new.offered ≡ audit.old.offered) × (audit.new.offered_first ≡ audit.old.offered_first) ×
        (audit.new.offered_used ≡ audit.old.offered_used) }
    ensures taken { (audit.new.taken ≡ audit.old.taken) × (audit.new.taken_first ≡ audit.old.taken_first) ×
        (audit.new.taken_used ≡ audit.old.taken_used) }
    ensures line { audit.new.line ≡ audit.old.line }
{
    audit.calls = calls_of(state.auditor, state.begun);
    audit.limit = state.limit;
    audit.last_taken = state.last_taken;
    audit.has_ended = state.ended_at.is_some();
    audit.ended_at = state.ended_at.unwrap_or(0);
    audit.has_told = state.told_at.is_some();
    audit.told_at = state.told_at.unwrap_or(0);
    audit.put_at = state.put_at;
    audit.stored_at = state.stored_at;
    audit.report = state.report;
    audit.put_overlaps = state.put_overlaps;
    audit.take_overlaps = state.take_overlaps;
}
