//! A script, borrowed.
ghost use Rattle.std.specs.Prelude.{◌≡◌, ◌⊎◌, ◌<◌, ◌≤◌, ℕ, List, length, IfOk, IfErr};
ghost use Rattle.bits_core.specs.Shape.{width_of};
ghost use Rattle.ring_script.specs.Schedule.{run_count, spelled};
ghost use Rattle.ring_script.specs.Faults.{IsScriptFault};
ghost use Rattle.ring_script.specs.Script.{Fit, HoldsFields, IsContentOf, IsScript};
ghost use Rattle.ring_script.specs.Views.{IsKept};

use crate::faults::ScriptFault;
use crate::schedules::{LETTER_LIMIT, LetterRun};
use crate::scripts::{ITEM_LIMIT, read_parts};
use bits_core::Shape;

/// The values of a script's fields.
///
/// In use: the page, which makes a script from the values of its form.
#[derive(Clone, Copy, Debug)]
pub struct Fields<'a> {
    pub capacity: u64,
    pub modulus: u64,
    pub width: u64,
    pub items: &'a [u64],
    pub takes: u64,
    pub close: bool,
    pub schedule: &'a [u8],
    pub oracle: &'a [u8],
    pub batch: u64,
    pub take_batch: u64,
}

/// A script, borrowed. To a contract it is its content.
///
/// In use: the page, whose script is not kept in a `Script`.
#[derive(Clone, Copy, Debug)]
pub struct ScriptRef<'a> {
    pub(crate) shape: Shape,
    pub(crate) items: &'a [u64],
    pub(crate) takes: u64,
    pub(crate) closes: bool,
    pub(crate) runs: &'a [LetterRun],
    pub(crate) letters: u64,
    pub(crate) oracle: &'a [bool],
    ghost kept: { IsKept shape items.now letters (spelled runs.now) },
}

impl<'a> ScriptRef<'a> {
    ghost use Rattle.ring_script.specs.Borrowed.{content_of, held_of};

    /// The script whose fields have these values: as [`Script::read_in`] reads it from bytes, or with the same fault.
    /// It takes no memory: the runs of the schedule and the answers of the oracle are stored in the slices.
    /// `OutOfMemory` means that a slice has too few slots.
    pub fn of_fields(
        fields: &Fields<'a>,
        runs: &'a mut [LetterRun],
        answers: &'a mut [bool],
    ) -> Result<ScriptRef<'a>, ScriptFault>
        // The script is the one that the values represent.
        ensures content { IfOk result (λ script. IsContentOf (held_of fields.now) (content_of script)) }
        // It is the script of any bytes whose fields hold these values.
        ensures read { IfOk result (λ script. (bytes : List ℕ) → HoldsFields bytes (held_of fields.now) →
            IsScript bytes (content_of script)) }
        // The fault is that of any such bytes, or a slice is too short for the runs of the schedule, or for the answers.
        ensures refused { IfErr result (λ e. ((e ≡ ScriptFault.OutOfMemory) ×
            ((length runs.old < run_count fields.now.schedule.now) ⊎
            (length answers.old < length fields.now.oracle.now))) ⊎
            ((bytes : List ℕ) → HoldsFields bytes (held_of fields.now) → IsScriptFault bytes e)) }
    {
        read_parts(fields, runs, answers)
    }

    /// The shape of the ring.
    pub fn shape(&self) -> Shape
        ensures { result ≡ (content_of self.now).shape }
    {
        self.shape
    }

    /// The items to put, in order: at most `ITEM_LIMIT`, and each fits the shape.
    pub fn items(&self) -> &'a [u64]
        ensures value { result.now ≡ (content_of self.now).items }
        ensures few { length result.now ≤ ITEM_LIMIT }
        ensures fit { Fit (width_of (content_of self.now).shape) result.now }
    {
        self.items
    }

    /// How many items the consumer asks for. It may be any number.
    pub fn takes(&self) -> u64
        ensures { result ≡ (content_of self.now).takes }
    {
        self.takes
    }

    /// Whether the producer closes after the last item.
    pub fn closes(&self) -> bool
        ensures { result ≡ (content_of self.now).closes }
    {
        self.closes
    }

    /// How many letters the schedule represents, at most `LETTER_LIMIT`. It may be 0.
    pub fn len(&self) -> u64
        ensures value { result ≡ length (content_of self.now).letters }
        ensures short { result ≤ LETTER_LIMIT }
    {
        self.letters
    }

    /// The schedule as runs of one letter each, in order.
    pub fn runs(&self) -> &'a [LetterRun]
        ensures { spelled result.now ≡ (content_of self.now).letters }
    {
        self.runs
    }

    /// The answers of overlapped reads, in order, true for `1`. There may be none.
    pub fn oracle(&self) -> &'a [bool]
        ensures { result.now ≡ (content_of self.now).oracle }
    {
        self.oracle
    }
}
