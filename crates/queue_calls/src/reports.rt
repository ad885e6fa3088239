//! What is reported of a linearizable history.
ghost use Rattle.std.specs.Prelude.{◌≡◌, ℕ, ◌+◌, ◌∷◌, [], List, max};
ghost use Rattle.queue_calls.specs.Calls as calls;
ghost use Rattle.queue_calls.specs.Calls.{CloseBegin, TakeBegin};
ghost use Rattle.queue_calls.specs.Counting.{kept_by};
ghost use Rattle.queue_calls.specs.Reporting.{as_number, capped, put_is_open, take_is_open};
ghost use Rattle.queue_calls.specs.Tallying.{HaveNumbersOf, HaveOtherNumbersOf, IsToldOf, Tallies, least_kept, most_behind, most_kept, has_put, has_take};
ghost use Rattle.queue_calls.specs.Told.{meant, told};

use crate::auditors::CallAuditor;
use crate::events::{Event, Reply};
use crate::insides::Inside;

/// What is reported of a linearizable history: how much of what an author wanted to test it has reached.
///
/// Numbers saturate at the largest value.
///
/// In use: `uses::findings::found_in`.
#[repr(C)]
#[derive(Clone, Copy, Default, PartialEq, Eq, Debug)]
pub struct CallsReport {
    /// Calls that have begun.
    pub calls: usize,
    /// Items stored by puts that have ended.
    pub stored: usize,
    /// Items taken by takes that have ended.
    pub taken: usize,
    /// Puts that ended full, short or with only some of their items stored.
    pub full: usize,
    /// Takes that ended empty or short.
    pub empty: usize,
    /// Calls that ended with nothing done and no reason reported.
    pub nothing: usize,
    /// Whether a take returned Closed.
    pub told: bool,
    /// At some moment this many items were inside, whatever the order of the operations.
    pub surely_inside: usize,
    /// There were never more items inside than this, whatever the order.
    pub perhaps_inside: usize,
    /// Calls that overlapped one of the other side.
    pub overlapped: usize,
    /// Calls under way at the end, at most 2.
    pub under_way: usize,
}

// The report on the events so far; and whether the call under way of each side has overlapped one of the other.
#[derive(Drop)]
pub(crate) struct Tally {
    pub(crate) report: CallsReport,
    pub(crate) put_overlaps: bool,
    pub(crate) take_overlaps: bool,
}

impl Tally {
    pub fn new() -> Tally
        ensures tallies { Tallies [] result }
        ensures inside { (result.report.surely_inside ≡ 0) × (result.report.perhaps_inside ≡ 0) }
    {
        Tally {
            report: CallsReport::default(),
            put_overlaps: false,
            take_overlaps: false,
        }
    }

    // The report, for an auditor that has read the events.
    pub fn report<Q: Inside>(&self, auditor: &CallAuditor<Q>) -> CallsReport
        ensures under_way { result.under_way ≡ as_number (has_put auditor.now.put) + as_number
            (has_take auditor.now.take) }
        ensures numbers { HaveNumbersOf self.now.report result }
    {
        let mut report = self.report;
        report.under_way = usize::from(auditor.is_putting()) + usize::from(auditor.is_taking());
        report
    }

    // Counts an event that an auditor has read; before it this many items were offered.
    pub fn count<Q: Inside>(&mut self, event: Event<'_>, offered: usize, auditor: &CallAuditor<Q>)
        ensures tallies { (past : List calls.Event) → Tallies past self.old →
            IsToldOf (told event.entry) past offered auditor.now.put auditor.now.take →
            Tallies (told event.entry ∷ past) self.new }
        ensures surely { self.new.report.surely_inside ≡ max self.old.report.surely_inside
            (least_kept (kept_by Q.items auditor.now)) }
        ensures perhaps { self.new.report.perhaps_inside ≡ most_behind (told event.entry) self.old.report.perhaps_inside
            (most_kept (meant auditor.now.capacity) (kept_by Q.items auditor.now)) }
    {
        self.adds(event, offered, auditor);
        self.report.surely_inside = self.report.surely_inside.max(auditor.least_inside());
    }

    // Counts everything of an event except what was inside whatever the order.
    fn adds<Q: Inside>(&mut self, event: Event<'_>, offered: usize, auditor: &CallAuditor<Q>)
        ensures tallies { (past : List calls.Event) → Tallies past self.old →
            IsToldOf (told event.entry) past offered auditor.now.put auditor.now.take →
            Tallies (told event.entry ∷ past) self.new }
        ensures surely { self.new.report.surely_inside ≡ self.old.report.surely_inside }
        ensures perhaps { self.new.report.perhaps_inside ≡ most_behind (told event.entry) self.old.report.perhaps_inside
            (most_kept (meant auditor.now.capacity) (kept_by Q.items auditor.now)) }
    {
        match event {
            Event::PutBegins(_) => {
                self.put_begins(auditor.is_taking());
                let inside = auditor.most_inside();
                self.report.perhaps_inside = self.report.perhaps_inside.max(inside);
            }
            Event::CloseBegins => self.put_begins(auditor.is_taking()),
            Event::TakeBegins(_) => self.take_begins(auditor.is_putting()),
            Event::PutEnds(Reply::Passed(count)) => {
                self.report.stored = self.report.stored.saturating_add(count);
                let is_short = count < offered;
                self.report.full = self.report.full.saturating_add(usize::from(is_short));
            }
            Event::PutEnds(Reply::PassedSome(count)) => self.report.stored = self
                .report
                .stored
                .saturating_add(count),
            Event::PutEnds(Reply::Lacked | Reply::Short) => {
                self.report.full = self.report.full.saturating_add(1);
            }
            Event::TakeEnds(Reply::Passed(items) | Reply::PassedSome(items)) => {
                self.report.taken = self.report.taken.saturating_add(items.len());
            }
            Event::TakeEnds(Reply::Lacked | Reply::Short) => {
                self.report.empty = self.report.empty.saturating_add(1);
            }
            Event::PutEnds(Reply::Nothing) | Event::TakeEnds(Reply::Nothing) => {
                self.report.nothing = self.report.nothing.saturating_add(1);
            }
            Event::TakeEnds(Reply::Shut) => self.report.told = true,
            Event::PutEnds(Reply::Shut) | Event::CloseEnds => {}
        }
    }

    fn put_begins(&mut self, is_taking: bool)
        ensures tallies { (past : List calls.Event) → Tallies past self.old → is_taking ≡ take_is_open past →
            Tallies (CloseBegin ∷ past) self.new }
        ensures inside { (self.new.report.surely_inside ≡ self.old.report.surely_inside) ×
            (self.new.report.perhaps_inside ≡ self.old.report.perhaps_inside) }
    {
        self.begins(is_taking && !self.take_overlaps, is_taking);
        self.put_overlaps = is_taking;
        self.take_overlaps = self.take_overlaps || is_taking;
    }

    fn take_begins(&mut self, is_putting: bool)
        ensures tallies { (past : List calls.Event) (wanted : ℕ) → Tallies past self.old →
            is_putting ≡ put_is_open past → Tallies (TakeBegin wanted ∷ past) self.new }
        ensures inside { (self.new.report.surely_inside ≡ self.old.report.surely_inside) ×
            (self.new.report.perhaps_inside ≡ self.old.report.perhaps_inside) }
    {
        self.begins(is_putting && !self.put_overlaps, is_putting);
        self.take_overlaps = is_putting;
        self.put_overlaps = self.put_overlaps || is_putting;
    }

    // Counts a call that begins; whether it is the first that overlaps that of the other side, and whether it overlaps one.
    fn begins(&mut self, is_first: bool, overlaps: bool)
        ensures calls { self.new.report.calls ≡ capped (self.old.report.calls + 1) }
        ensures overlapped { self.new.report.overlapped ≡ capped
            (self.old.report.overlapped + (as_number is_first + as_number overlaps)) }
        ensures others { HaveOtherNumbersOf self.old.report self.new.report ×
            (self.new.put_overlaps ≡ self.old.put_overlaps) × (self.new.take_overlaps ≡ self.old.take_overlaps) }
    {
        self.report.calls = self.report.calls.saturating_add(1);
        let more = usize::from(is_first) + usize::from(overlaps);
        self.report.overlapped = self.report.overlapped.saturating_add(more);
    }
}
