//! A finding, as numbers.
ghost use Rattle.std.specs.Prelude.{◌≡◌, length};
ghost use Rattle.queue_calls_c.specs.Heard.{found_of, words_after};

use crate::hearings::Heard;
use queue_calls::{CallsFinding, RecordingFault, write_cause};

/// The finding on lines, as numbers; those that it does not use are 0.
#[repr(C)]
#[derive(Clone, Copy, PartialEq, Eq, Debug)]
pub struct HeardFound {
    /// The line at fault, or the bad one, counted from 1 including the one with the capacity.
    pub line: u64,
    /// The line that contradicts the one at fault; 0 if none does.
    pub against: u64,
    /// How many bytes the text of the cause has.
    pub words: u64,
    /// 0: all lines were heard, and their history is linearizable. 1: the next line is out of turn; 2: with it the history is not
    /// linearizable; 3: no such line may come there; 4: there is no room for its items; 5: there are too many lines; 6: the state is
    /// not one that this library left.
    pub verdict: u32,
}

// The verdict on a line, with the text of a cause at the front of the slots.
pub fn found_of(said: Heard, words: &mut [u8]) -> HeardFound
    ensures found { result ≡ found_of (length words.old) said }
    ensures words { words.new ≡ words_after said words.old }
{
    let (verdict, line, against, count) = match said {
        Ok(None) => (0, 0, 0, 0),
        // (a line that is not heard is at fault)
        Ok(Some(CallsFinding::Lawful(_))) => (6, 0, 0, 0),
        Ok(Some(CallsFinding::OutOfTurn { line })) => (1, line, 0, 0),
        Ok(Some(CallsFinding::NotLinearizable { line, cause })) => {
            let against = cause.line().unwrap_or(0);
            (2, line, against, write_cause(words, cause))
        }
        Err(RecordingFault::BadLine(line)) => (3, line, 0, 0),
        Err(RecordingFault::OutOfMemory) => (4, 0, 0, 0),
        Err(RecordingFault::TooLong) => (5, 0, 0, 0),
    };
    HeardFound {
        line,
        against,
        words: count as u64,
        verdict,
    }
}
