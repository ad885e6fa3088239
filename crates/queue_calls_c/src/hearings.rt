//! Lines given by numbers.
ghost use Rattle.std.specs.Prelude.{◌≡◌, ◌+◌, ◌↔◌, IfOk, IfSome, IsTrue, List, None, Ok, false, length, take, drop};
ghost use Rattle.queue_calls.specs.Hearings.{FollowsLines, IsNotLawful};
ghost use Rattle.queue_calls.specs.Recordings as recordings;
ghost use Rattle.lists.specs.Rings.{ring_items};
ghost use Rattle.queue_calls_c.specs.Heard.{HearsSome, SaysOf, offered_room, taken_room};

use queue_calls::{CallsFinding, Hearing, Lent, RecordingFault, Word};

/// A line of a recording: its word, by its number, and how many numbers it has, which come in a list of their own.
#[repr(C)]
#[derive(Clone, Copy, PartialEq, Eq, Debug)]
pub struct WordLine {
    pub word: u32,
    pub count: u32,
}

/// The verdict of a hearing on a line.
pub type Heard = Result<Option<CallsFinding>, RecordingFault>;

// The first of the numbers, as many as the line has.
fn own_numbers<'n>(line: &WordLine, numbers: &'n [u64]) -> &'n [u64]
    ensures { result.now ≡ take line.now.count numbers.now }
{
    &numbers[..(line.count as usize).min(numbers.len())]
}

// The numbers after these.
fn other_numbers<'n>(line: &WordLine, numbers: &'n [u64]) -> &'n [u64]
    ensures { result.now ≡ drop line.now.count numbers.now }
{
    &numbers[(line.count as usize).min(numbers.len())..]
}

// Hears one line, which has this number, and returns the verdict.
fn hear_one(hearing: &mut Hearing<Lent<'_>>, number: u64, line: &WordLine, numbers: &[u64]) -> Heard
    ensures says { (before : List recordings.Line) → FollowsLines ring_items ring_items hearing.old false before →
        length before + 1 ≡ number →
        SaysOf hearing.old.witness.limit (offered_room hearing.old) (taken_room hearing.old)
        (FollowsLines ring_items ring_items hearing.new false) before line.now numbers.now result }
    ensures rooms { (offered_room hearing.new ≡ offered_room hearing.old) ×
        (taken_room hearing.new ≡ taken_room hearing.old) × (hearing.new.witness.limit ≡ hearing.old.witness.limit) }
    ensures at_fault { hearing.old.fault ≡ None → (hearing.new.fault ≡ None) ×
        IfOk result (λ found. IfSome found IsNotLawful) }
{
    match Word::of_number(line.word) {
        Some(word) => hearing.hear_line(number, word, own_numbers(line, numbers)),
        None => Err(RecordingFault::BadLine(number)),
    }
}

// Whether a line with this verdict was heard.
fn is_heard(said: Heard) -> bool
    ensures { IsTrue result ↔ (said ≡ Ok None) }
{
    match said {
        Ok(None) => true,
        Ok(Some(_)) | Err(_) => false,
    }
}

// Hears lines after a number of others: returns how many of them were heard, the number of lines then, and the verdict on the next one.
pub fn hear_lines(
    hearing: &mut Hearing<Lent<'_>>,
    before: u64,
    lines: &[WordLine],
    numbers: &[u64],
) -> (usize, u64, Heard)
    ensures hears { (earlier : List recordings.Line) → FollowsLines ring_items ring_items hearing.old false earlier →
        before ≡ length earlier →
        HearsSome hearing.old.witness.limit (offered_room hearing.old) (taken_room hearing.old)
        (λ ls. FollowsLines ring_items ring_items hearing.new false ls × (result.1 ≡ length ls)) earlier lines.now
        numbers.now result.0 result.2 }
    ensures limit { hearing.new.witness.limit ≡ hearing.old.witness.limit }
    ensures rooms { (offered_room hearing.new ≡ offered_room hearing.old) ×
        (taken_room hearing.new ≡ taken_room hearing.old) }
    ensures at_fault { hearing.old.fault ≡ None → IfOk result.2 (λ found. IfSome found IsNotLawful) }
{
    let mut rest = numbers;
    let mut number = before;
    let mut heard = 0;
    while heard < lines.len() {
        let line = &lines[heard];
        let Some(next) = number.checked_add(1) else {
            return (heard, number, Err(RecordingFault::TooLong));
        };
        let said = hear_one(hearing, next, line, rest);
        if !is_heard(said) {
            return (heard, number, said);
        }
        number = next;
        rest = other_numbers(line, rest);
        heard += 1;
    }
    (heard, number, Ok(None))
}
