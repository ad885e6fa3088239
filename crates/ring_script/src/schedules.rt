//! The text of a schedule: letters, each with or without a count.
ghost use Rattle.std.specs.Prelude.{◌≡◌, ◌⊎◌, ◌<◌, ◌≤◌, ◌^◌, max, [], length, slice_get, IfOk, IfErr};
ghost use Rattle.ring_script.specs.ScheduleReading.{is_letter, is_digit, may_stand, stray_in, letter_side, letters_of};
ghost use Rattle.ring_script.specs.Schedule.{run_count, spelled};

use crate::faults::ScriptFault;
use crate::stores::push;
use bits_core::{Side, Store};

/// The most letters that the schedule of a script may represent.
///
/// For example, `P1000000` is the longest schedule of one run, and `P1000000C` is refused.
pub const LETTER_LIMIT: u64 = 1_000_000;

/// The same letter of a schedule, some times over.
///
/// For example, `P8C10` is two runs: `P` eight times, and `C` ten times.
#[derive(Clone, Copy, PartialEq, Eq, Debug)]
pub struct LetterRun {
    pub side: Side,
    pub count: u64,
}

// Whether the byte is `P` or `C`.
fn is_a_letter(b: u8) -> bool
    ensures { result ≡ is_letter b }
{
    b == b'P' || b == b'C'
}

// Whether the byte is a digit.
fn is_a_digit(b: u8) -> bool
    ensures { result ≡ is_digit b }
{
    b'0' <= b && b <= b'9'
}

// Whether the byte may come right after `before`, which is 0 at the start.
fn can_stand(before: u8, b: u8) -> bool
    ensures { result ≡ may_stand before b }
{
    is_a_letter(b) || (is_a_digit(b) && (is_a_digit(before) || (is_a_letter(before) && b != b'0')))
}

// The side that a letter names.
fn letter_side(b: u8) -> Side
    ensures { result ≡ letter_side b }
{
    if b == b'P' { Side::P } else { Side::C }
}

/// The position of the first byte that cannot come where it is.
pub fn first_stray(text: &[u8]) -> Option<usize>
    ensures { result ≡ stray_in text.now }
{
    let mut before = 0;
    for (i, b) in text.iter().enumerate() {
        if !can_stand(before, *b) {
            return Some(i);
        }
        before = *b;
    }
    None
}

// As many letters as the count says; one without a count.
fn at_least_one(count: u64) -> u64
    ensures { result ≡ max 1 count }
{
    if count == 0 { 1 } else { count }
}

/// The runs of the letters that a text with no stray byte represents, in an empty store.
pub fn runs<S: Store<LetterRun>>(store: S, text: &[u8]) -> Result<S, ScriptFault>
    requires empty { S.items store ≡ [] }
    ensures spelled { IfOk result (λ runs. spelled (S.items runs) ≡ letters_of text.now) }
    ensures within { IfOk result (λ _. length (letters_of text.now) ≤ LETTER_LIMIT) }
    ensures refused { IfErr result (λ e. ((e ≡ ScriptFault.OutOfMemory) × (S.room store < run_count text.now))
        ⊎ ((e ≡ ScriptFault.ScheduleTooLong) × (LETTER_LIMIT < length (letters_of text.now)))) }
{
    let mut runs = store;
    let Some((first, rest)) = text.split_first() else {
        return Ok(runs);
    };
    let mut side = letter_side(*first);
    let mut count: u64 = 0;
    let mut total: u64 = 0;
    for b in rest {
        if is_a_digit(*b) {
            let more = 10 * count + u64::from(*b - b'0');
            if LETTER_LIMIT < total + more {
                return Err(ScriptFault::ScheduleTooLong);
            }
            count = more;
        } else {
            let times = at_least_one(count);
            if LETTER_LIMIT < total + times {
                return Err(ScriptFault::ScheduleTooLong);
            }
            push(&mut runs, LetterRun { side, count: times })?;
            total += times;
            side = letter_side(*b);
            count = 0;
        }
    }
    let times = at_least_one(count);
    if LETTER_LIMIT < total + times {
        return Err(ScriptFault::ScheduleTooLong);
    }
    push(&mut runs, LetterRun { side, count: times })?;
    Ok(runs)
}

/// How many letters runs represent.
pub fn letter_count(runs: &[LetterRun]) -> u64
    requires { length (spelled runs.now) < 2 ^ 64 }
    ensures { result ≡ length (spelled runs.now) }
{
    let mut count = 0;
    for run in runs {
        count += run.count;
    }
    count
}

/// The letter at a place, counted from 0, of those that runs represent.
pub fn letter_at(runs: &[LetterRun], place: u64) -> Option<Side>
    ensures { result ≡ slice_get (spelled runs.now) place }
{
    let mut left = place;
    for run in runs {
        if left < run.count {
            return Some(run.side);
        }
        left -= run.count;
    }
    None
}
