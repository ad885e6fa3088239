//! Prefixes of lines: whether bytes may still become a line.
ghost use Rattle.std.specs.Prelude.{◌≡◌, ◌↔◌, ◌++◌, IsTrue, List, Some, ℕ, codes, false};
ghost use Rattle.call_lines.specs.Lines.{word_text};
ghost use Rattle.call_lines.specs.Beginnings.{BeginsAWord, BeginsAfterWord, BeginsLine, BeginsNoLine, BeginsNumbers, most_numbers, one_less, tells_queue};

use crate::lines::{Word, spaced_number, word_at};

// How many words there are; they are numbered from 0.
const WORDS: u32 = 17;

// Whether a line with this word states the queue's capacity.
fn tells_queue(word: Word) -> bool
    ensures { result ≡ tells_queue word }
{
    match word {
        Word::Queue | Word::Cut => true,
        _ => false,
    }
}

// How many numbers may follow the word at most.
fn most_numbers(word: Word) -> Option<usize>
    ensures { result ≡ most_numbers word }
{
    match word {
        Word::Put | Word::Item | Word::TakeSome => None,
        Word::Queue | Word::Cut => Some(2),
        Word::Stored | Word::PutSome | Word::Take => Some(1),
        _ => Some(0),
    }
}

// Whether the text of the word, which may come there, begins with these bytes.
fn begins_word(bytes: &[u8], is_first: bool, word: Word) -> bool
    ensures { IsTrue result ↔ ((tells_queue word ≡ is_first) × (rest : List ℕ) × (word_text word ≡ bytes.now ++ rest)) }
{
    tells_queue(word) == is_first && word.text().as_bytes().starts_with(bytes)
}

// Whether the text of a word that may come there begins with these bytes.
fn begins_some_word(bytes: &[u8], is_first: bool) -> bool
    ensures { IsTrue result ↔ BeginsAWord is_first bytes.now }
{
    for number in 0..WORDS {
        if let Some(word) = Word::of_number(number) {
            if begins_word(bytes, is_first, word) {
                return true;
            }
        }
    }
    false
}

// Whether no more numbers may follow.
fn is_full(room: Option<usize>) -> bool
    ensures { IsTrue result ↔ (room ≡ Some 0) }
{
    match room {
        Some(more) => more == 0,
        None => false,
    }
}

// How many may follow after one more.
fn one_less(room: Option<usize>) -> Option<usize>
    ensures { result ≡ one_less room }
{
    match room {
        Some(more) => Some(more.saturating_sub(1)),
        None => None,
    }
}

// Whether the bytes are one space.
fn is_space(bytes: &[u8]) -> bool
    ensures { IsTrue result ↔ (bytes.now ≡ codes " ") }
{
    match bytes {
        [byte] => *byte == b' ',
        _ => false,
    }
}

// Whether the bytes begin the text of numbers, at most this many.
fn begins_numbers(bytes: &[u8], most: Option<usize>) -> bool
    ensures { IsTrue result ↔ BeginsNumbers most bytes.now }
{
    let mut left = bytes;
    let mut room = most;
    while !left.is_empty() {
        if is_full(room) {
            return false;
        }
        let Some((_, rest)) = spaced_number(left) else {
            return is_space(left);
        };
        room = one_less(room);
        left = rest;
    }
    true
}

// Whether a word that may come there is in front, followed by a prefix of numbers.
fn begins_after_word(bytes: &[u8], is_first: bool) -> bool
    ensures { IsTrue result ↔ BeginsAfterWord is_first bytes.now }
{
    let Some((word, rest)) = word_at(bytes) else {
        return false;
    };
    tells_queue(word) == is_first && begins_numbers(rest, most_numbers(word))
}

/// Whether these bytes, in which no line has ended, may begin the first line of a recording, or a further one: with some bytes after
/// them they are a word that may come there and no more numbers than may follow it. If not, they become no line, whatever comes
/// next.
///
/// For example, `P put 1` may begin a further line, and `P put 01` begins none. It takes time linear in the bytes.
///
/// In use: `queue_calls::RecordingIn`, for a line that does not end.
pub fn may_begin(bytes: &[u8], is_first: bool) -> bool
    ensures begins { IsTrue result ↔ BeginsLine is_first bytes.now }
    ensures none { result ≡ false → BeginsNoLine is_first bytes.now }
{
    begins_some_word(bytes, is_first) || begins_after_word(bytes, is_first)
}
