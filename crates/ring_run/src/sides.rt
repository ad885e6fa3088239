//! What the two sides of a relay see of each other.
ghost use Rattle.std.specs.Prelude.{◌≡◌, ◌+◌, ◌<◌, ◌^◌, ◌-◌, ◌≤◌, true, false};

use std::sync::atomic::{AtomicU64, Ordering};

// A side that has not begun, is running, or has finished.
const BEFORE: u64 = 0;

const AT_WORK: u64 = 1;

const OVER: u64 = 2;

// How many calls in vain, in a row, a side makes while the other one has not begun. A thread that was started begins long before.
const PATIENCE: u64 = 1 << 24;

/// The stage of a side of a relay, for the other side to look at.
#[derive(Drop)]
pub(crate) struct Stage {
    at: AtomicU64,
}

impl Stage {
    /// The stage of a side that has not begun.
    pub fn new() -> Stage {
        Stage {
            at: AtomicU64::new(BEFORE),
        }
    }

    /// The side begins.
    pub fn begin(&self) {
        self.at.store(AT_WORK, Ordering::SeqCst);
    }

    /// The side has finished: it makes no more calls.
    pub fn end(&self) {
        self.at.store(OVER, Ordering::SeqCst);
    }

    // Whether the side makes no more calls, or has not begun although the other one has waited this long for it.
    fn is_over(&self, waits: u64) -> bool {
        match self.at.load(Ordering::SeqCst) {
            BEFORE => waits >= PATIENCE,
            stage => stage == OVER,
        }
    }
}

/// What a side sees of the other one, and its calls in vain: the puts that found the ring full, or the takes that found it empty.
#[derive(Drop)]
pub(crate) struct Watch<'a> {
    other: &'a Stage,
    // Whether the other side had finished when this one last looked.
    is_over: bool,
    /// How many calls were in vain.
    pub waited: u64,
    /// How many of them began when the other side was seen to have finished. Such a call is the last one: nothing
    /// changes for the next one.
    pub vain: u64,
}

impl<'a> Watch<'a> {
    /// A watch of a side that has made no call.
    pub fn of(other: &'a Stage) -> Watch<'a>
        ensures { (result.waited ≡ 0) × (result.vain ≡ 0) }
    {
        Watch {
            other,
            is_over: false,
            waited: 0,
            vain: 0,
        }
    }

    /// Looks at the other side before a call; this many calls before it were in vain in a row.
    pub fn look(&mut self, waits: u64)
        ensures { (self.new.waited ≡ self.old.waited) × (self.new.vain ≡ self.old.vain) }
    {
        self.is_over = self.other.is_over(waits);
    }

    /// The call was in vain.
    pub fn waits(&mut self)
        requires { (self.old.waited < 2 ^ 64 - 1) × (self.old.vain ≤ self.old.waited) }
        ensures waited { self.new.waited ≡ self.old.waited + 1 }
        ensures open { self.old.is_over ≡ false → self.new.vain ≡ self.old.vain }
        ensures over { self.old.is_over ≡ true → self.new.vain ≡ self.old.vain + 1 }
        ensures most { self.new.vain ≤ self.old.vain + 1 }
    {
        self.waited += 1;
        if self.is_over {
            self.vain += 1;
        }
    }
}
