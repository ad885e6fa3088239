//! How much a history could have shown.
ghost use Rattle.std.specs.Prelude.{◌≡◌, ◌<◌, ◌||◌, ℕ, suc, nat_lt, Bool, true, false, List, ◌∷◌, [], length, if◌then◌else◌};
ghost use Rattle.register_calls.specs.Histories.{started, finished, before_read};
ghost use Rattle.register_calls.specs.Reports.{TalliesRegister, one_more_if, is_value};
ghost use Rattle.register_calls.specs.declared.events.RegisterEvent.{RegisterEvent};
ghost use Rattle.register_calls.specs.declared.events.RegisterEvent.TheVariants.{WriteBegins, WriteEnds, ReadBegins, ReadEnds};

/// How much a history of a register could have shown.
#[derive(Clone, Copy, PartialEq, Eq, Debug)]
pub struct RegisterReport {
    /// How many writes have begun.
    pub writes: usize,
    /// How many reads have ended.
    pub reads: usize,
    /// How many of these a write overlapped.
    pub overlapped: usize,
    /// How many of these several writes overlapped.
    pub by_several: usize,
    /// How many reads began while a write was under way whose value a read that had ended had returned since that write began. If it
    /// is 0, the history cannot tell a regular register from an atomic one.
    pub could_invert: usize,
}

// What is kept of a history for its report.
#[derive(Clone, Copy)]
pub(crate) struct RegisterTally {
    pub(crate) report: RegisterReport,
    // the value of the write under way, if there is one, and whether a read that has ended has returned it since that write began
    pub(crate) under_way: Option<u64>,
    pub(crate) is_shown: bool,
}

// One more, if something holds.
fn counted(count: usize, holds: bool) -> usize
    ensures { count < usize.MAX → result ≡ one_more_if holds count }
{
    if holds {
        count.saturating_add(1)
    } else {
        count
    }
}

// Whether there is a value, and it is this one.
fn is_value(held: Option<u64>, value: u64) -> bool
    ensures { result ≡ is_value held value }
{
    match held {
        Some(held) => held == value,
        None => false,
    }
}

// Whether one of two holds.
fn either(one: bool, other: bool) -> bool
    ensures { result ≡ (one || other) }
{
    one || other
}

impl RegisterTally {
    // The tally of a history with no event.
    pub(crate) fn new() -> RegisterTally
        ensures { TalliesRegister result [] }
    {
        let report = RegisterReport {
            writes: 0,
            reads: 0,
            overlapped: 0,
            by_several: 0,
            could_invert: 0,
        };
        RegisterTally {
            report,
            under_way: None,
            is_shown: false,
        }
    }

    // A write begins.
    pub(crate) fn write_begins(&mut self, value: u64)
        ensures { (h : List RegisterEvent) → length h < usize.MAX → TalliesRegister self.old h →
            TalliesRegister self.new (WriteBegins value ∷ h) }
    {
        self.report.writes = counted(self.report.writes, true);
        self.under_way = Some(value);
        self.is_shown = false;
    }

    // The write ends.
    pub(crate) fn write_ends(&mut self)
        ensures { (h : List RegisterEvent) → TalliesRegister self.old h → TalliesRegister self.new (WriteEnds ∷ h) }
    {
        self.under_way = None;
        self.is_shown = false;
    }

    // A read begins.
    pub(crate) fn read_begins(&mut self)
        ensures { (i : ℕ) (h : List RegisterEvent) → length h < usize.MAX → TalliesRegister self.old h →
            TalliesRegister self.new (ReadBegins i ∷ h) }
    {
        self.report.could_invert = counted(self.report.could_invert, self.is_shown);
    }

    // A read ends, before whose start this many writes had ended, and before whose end this many have begun.
    pub(crate) fn read_ends(&mut self, before: usize, begun: usize, value: u64)
        ensures { (i : ℕ) (h : List RegisterEvent) → length h < usize.MAX → before ≡ finished (before_read i h) →
            begun ≡ started h → TalliesRegister self.old h → TalliesRegister self.new (ReadEnds i value ∷ h) }
    {
        self.report.reads = counted(self.report.reads, true);
        self.report.overlapped = counted(self.report.overlapped, before < begun);
        self.report.by_several = counted(self.report.by_several, 1 < begun.saturating_sub(before));
        self.is_shown = either(self.is_shown, is_value(self.under_way, value));
    }
}
