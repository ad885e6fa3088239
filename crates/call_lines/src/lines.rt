//! The lines of a recording's text.
ghost use Rattle.std.specs.Prelude.{◌≡◌, ◌↔◌, ◌<◌, ◌++◌, IsTrue, None, Some, IfOk, OnErr, IfSome, ℕ, List, length, option_map};
ghost use Rattle.call_lines.specs.Lines.{Allows, AreSmall, BeginsWithNumbers, IsLine, numbers_text, word_of, word_text};
ghost use Rattle.call_lines.specs.LineReading.{ReadsNumbers, spaced_number, put_word_at, take_word_at, line_word_at};

use line_parts::{after, number_at};
use lists::Store;
use std::alloc::AllocError;

// In the order of the text, so `number` is a table: as a cast, in the order of the numbers, it made `audit --calls` 13 % slower or more.
/// The words that a line of a recording begins with.
///
/// For example, `Word::Put.text()` is `P put`.
#[derive(Clone, Copy, PartialEq, Eq, Debug)]
pub enum Word {
    /// `queue`: the queue's capacity.
    Queue,
    /// `cut queue`: the queue's capacity, in a recording that lacks the later calls.
    Cut,
    /// `P put`: a put begins.
    Put,
    /// `P stored`: the put ends.
    Stored,
    /// `P some`: the put ends.
    PutSome,
    /// `P full`: the put ends.
    Full,
    /// `P short`: the put ends.
    Short,
    /// `P nothing`: the put ends.
    PutNothing,
    /// `P closed`: the put or the close ends.
    PutClosed,
    /// `P close`: a close begins.
    Close,
    /// `C take`: a take begins.
    Take,
    /// `C item`: the take ends.
    Item,
    /// `C some`: the take ends.
    TakeSome,
    /// `C empty`: the take ends.
    Empty,
    /// `C short`: the take ends.
    TakeShort,
    /// `C nothing`: the take ends.
    TakeNothing,
    /// `C closed`: the take ends.
    TakeClosed,
}

impl Word {
    /// The word as it is in a line.
    pub fn text(self) -> &'static str
        ensures { result.now ≡ word_text self }
    {
        match self {
            Word::Queue => "queue",
            Word::Cut => "cut queue",
            Word::Put => "P put",
            Word::Stored => "P stored",
            Word::PutSome => "P some",
            Word::Full => "P full",
            Word::Short => "P short",
            Word::PutNothing => "P nothing",
            Word::PutClosed => "P closed",
            Word::Close => "P close",
            Word::Take => "C take",
            Word::Item => "C item",
            Word::TakeSome => "C some",
            Word::Empty => "C empty",
            Word::TakeShort => "C short",
            Word::TakeNothing => "C nothing",
            Word::TakeClosed => "C closed",
        }
    }

    /// Its number, by which a program identifies it: 0 to 14 as `record/` numbers the kinds of events, 15 `queue` and 16 `cut queue`.
    ///
    /// In use: `ring_run::Recorder`, `ring_page::page_play_near`.
    pub fn number(self) -> u32
        ensures { word_of result ≡ Some self }
    {
        match self {
            Word::Put => 0,
            Word::Close => 1,
            Word::Take => 2,
            Word::Stored => 3,
            Word::PutSome => 4,
            Word::Full => 5,
            Word::Short => 6,
            Word::PutNothing => 7,
            Word::PutClosed => 8,
            Word::Item => 9,
            Word::TakeSome => 10,
            Word::Empty => 11,
            Word::TakeShort => 12,
            Word::TakeNothing => 13,
            Word::TakeClosed => 14,
            Word::Queue => 15,
            Word::Cut => 16,
        }
    }

    /// The word with this number.
    ///
    /// In use: `queue_calls_c`, by which C identifies its lines.
    pub fn of_number(number: u32) -> Option<Word>
        ensures { result ≡ word_of number }
    {
        match number {
            0 => Some(Word::Put),
            1 => Some(Word::Close),
            2 => Some(Word::Take),
            3 => Some(Word::Stored),
            4 => Some(Word::PutSome),
            5 => Some(Word::Full),
            6 => Some(Word::Short),
            7 => Some(Word::PutNothing),
            8 => Some(Word::PutClosed),
            9 => Some(Word::Item),
            10 => Some(Word::TakeSome),
            11 => Some(Word::Empty),
            12 => Some(Word::TakeShort),
            13 => Some(Word::TakeNothing),
            14 => Some(Word::TakeClosed),
            15 => Some(Word::Queue),
            16 => Some(Word::Cut),
            _ => None,
        }
    }
}

/// Reads one line, without its line feed: its word, with its numbers in `numbers`, replacing what was there. It is `None`
/// if the bytes are not a line of the format, and an error only if there was no room for the numbers; `numbers` may then
/// hold anything.
pub fn read_line<R: Store<u64>>(bytes: &[u8], numbers: &mut R) -> Result<Option<Word>, AllocError>
    ensures line { IfOk result (λ read. IfSome read (λ word. IsLine bytes.now word (R.items numbers.new))) }
    ensures none { IfOk result (λ read. read ≡ None → (word : Word) (told : List ℕ) → ¬ IsLine bytes.now word told) }
    ensures full { OnErr result (BeginsWithNumbers (R.room numbers.old) bytes.now) }
    ensures kept { R.room numbers.new ≡ R.room numbers.old }
{
    let Some((word, rest)) = word_at(bytes) else {
        return Ok(None);
    };
    if read_numbers(rest, numbers)? && allows(word, numbers.as_slice()) {
        Ok(Some(word))
    } else {
        Ok(None)
    }
}

// The word at the front, and the bytes after it.
pub(crate) fn word_at(bytes: &[u8]) -> Option<(Word, &[u8])>
    ensures { option_map (λ x. (x.0, x.1.now)) result ≡ line_word_at bytes.now }
{
    match bytes {
        [b'P', b' ', ..] => return put_word_at(&bytes[2..]),
        [b'C', b' ', ..] => return take_word_at(&bytes[2..]),
        _ => {}
    }
    if let Some(rest) = after(bytes, "queue") {
        return Some((Word::Queue, rest));
    }
    let rest = after(bytes, "cut queue")?;
    Some((Word::Cut, rest))
}

fn put_word_at(bytes: &[u8]) -> Option<(Word, &[u8])>
    ensures { option_map (λ x. (x.0, x.1.now)) result ≡ put_word_at bytes.now }
{
    if let Some(rest) = after(bytes, "put") {
        return Some((Word::Put, rest));
    }
    if let Some(rest) = after(bytes, "stored") {
        return Some((Word::Stored, rest));
    }
    if let Some(rest) = after(bytes, "full") {
        return Some((Word::Full, rest));
    }
    if let Some(rest) = after(bytes, "short") {
        return Some((Word::Short, rest));
    }
    if let Some(rest) = after(bytes, "nothing") {
        return Some((Word::PutNothing, rest));
    }
    if let Some(rest) = after(bytes, "closed") {
        return Some((Word::PutClosed, rest));
    }
    if let Some(rest) = after(bytes, "close") {
        return Some((Word::Close, rest));
    }
    let rest = after(bytes, "some")?;
    Some((Word::PutSome, rest))
}

fn take_word_at(bytes: &[u8]) -> Option<(Word, &[u8])>
    ensures { option_map (λ x. (x.0, x.1.now)) result ≡ take_word_at bytes.now }
{
    if let Some(rest) = after(bytes, "take") {
        return Some((Word::Take, rest));
    }
    if let Some(rest) = after(bytes, "item") {
        return Some((Word::Item, rest));
    }
    if let Some(rest) = after(bytes, "empty") {
        return Some((Word::Empty, rest));
    }
    if let Some(rest) = after(bytes, "short") {
        return Some((Word::TakeShort, rest));
    }
    if let Some(rest) = after(bytes, "nothing") {
        return Some((Word::TakeNothing, rest));
    }
    if let Some(rest) = after(bytes, "closed") {
        return Some((Word::TakeClosed, rest));
    }
    let rest = after(bytes, "some")?;
    Some((Word::TakeSome, rest))
}

// Reads numbers with a space before each of them, and returns whether the bytes are such.
fn read_numbers<R: Store<u64>>(bytes: &[u8], numbers: &mut R) -> Result<bool, AllocError>
    ensures read { IfOk result (λ read. ReadsNumbers bytes.now read (R.items numbers.new)) }
    ensures full { OnErr result ((told : List ℕ) × (rest : List ℕ) × (bytes.now ≡ numbers_text told ++ rest) ×
        AreSmall told × (R.room numbers.old < length told)) }
    ensures kept { R.room numbers.new ≡ R.room numbers.old }
{
    numbers.clear();
    let mut left = bytes;
    while !left.is_empty() {
        let Some((number, rest)) = spaced_number(left) else {
            return Ok(false);
        };
        numbers.push(number)?;
        left = rest;
    }
    Ok(true)
}

// The number after a space at the front, and the bytes after it.
#[tactic(auto, unfolding(crate::specs::LineReading::spaced_number))]
pub(crate) fn spaced_number(bytes: &[u8]) -> Option<(u64, &[u8])>
    ensures { option_map (λ x. (x.0, x.1.now)) result ≡ spaced_number bytes.now }
{
    let digits = after(bytes, " ")?;
    number_at(digits)
}

/// Whether these numbers may come after the word.
///
/// In use: `uses::hearings::of_queue`.
pub fn allows(word: Word, numbers: &[u64]) -> bool
    ensures { IsTrue result ↔ Allows word numbers.now }
{
    match (word, numbers) {
        (Word::Queue | Word::Cut, [most]) => 1 <= *most,
        (Word::Queue | Word::Cut, [full, most]) => full < most,
        (Word::Put | Word::Item | Word::TakeSome, [_, ..]) => true,
        (Word::Stored | Word::PutSome, [count]) => 1 <= *count,
        (Word::Take, [count]) => 2 <= *count,
        (Word::Put | Word::PutSome | Word::Item | Word::TakeSome, []) => false,
        (_, numbers) => numbers.is_empty(),
    }
}
