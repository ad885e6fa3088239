//! Recordings of the calls of a relay.
ghost use Rattle.std.specs.Prelude.{◌≤◌, IfOk, IfSome, length};
ghost use Rattle.queue_calls.specs.Recordings.{IsFurther, line};

use crate::gates::{Gate, YieldGate};
use bits_core::Side;
use queue_calls::{Event, Reply, Word, allows};
use std::alloc::{AllocError, Allocator};
use std::sync::atomic::{AtomicU64, Ordering};

/// Room for a line of a recording, or for one more item of a put or a take.
///
/// In use: `lamport_ring run --record`.
#[derive(Drop)]
pub struct Slot {
    // the ticket times 32, plus the number of the line's word
    mark: AtomicU64,
    number: AtomicU64,
}

impl Slot {
    /// A slot in which nothing is recorded.
    pub fn new() -> Slot {
        Slot {
            mark: AtomicU64::new(0),
            number: AtomicU64::new(0),
        }
    }

    fn ticket(&self) -> u64 {
        self.mark.load(Ordering::SeqCst) / WORDS
    }
}

// More than there are words.
const WORDS: u64 = 32;

// Not a ticket.
const NEVER: u64 = u64::MAX;

// The lines of one side, which alone writes it while the relay runs.
#[derive(Drop)]
struct Log<'a> {
    slots: &'a [Slot],
    // How many slots are in use.
    used: AtomicU64,
    // The ticket of the first line for which there was no room.
    lost: AtomicU64,
}

impl<'a> Log<'a> {
    fn new(slots: &'a [Slot]) -> Log<'a> {
        Log {
            slots,
            used: AtomicU64::new(0),
            lost: AtomicU64::new(NEVER),
        }
    }

    // Whether there was no room for a line.
    fn has_lost(&self) -> bool {
        self.lost.load(Ordering::SeqCst) != NEVER
    }

    // Records a line with these numbers, at least one, if there is room for it and was for all before it.
    fn add(&self, ticket: u64, word: Word, numbers: &[u64]) {
        let used = self.used.load(Ordering::SeqCst);
        let free = self.slots.get(used as usize..).unwrap_or(&[]);
        let whole = !self.has_lost();
        if !whole || free.len() < numbers.len() {
            if whole {
                self.lost.store(ticket, Ordering::SeqCst);
            }
            return;
        }
        let mark = ticket
            .wrapping_mul(WORDS)
            .wrapping_add(u64::from(word.number()));
        for (slot, number) in free.iter().zip(numbers) {
            slot.mark.store(mark, Ordering::SeqCst);
            slot.number.store(*number, Ordering::SeqCst);
        }
        self.used.store(used.saturating_add(numbers.len() as u64), Ordering::SeqCst);
    }

    // The slots in use.
    fn in_use(&self) -> &[Slot] {
        let used = self.used.load(Ordering::SeqCst);
        match self.slots.get(..used as usize) {
            Some(slots) => slots,
            None => &[],
        }
    }
}

/// A gate that records the calls of a relay, the start and the end of each, and lets another thread run as a
/// `YieldGate` does.
///
/// Each line has a ticket of one counter that both sides share. That of a start is taken before the call, that of an end
/// after it, so by the tickets each call lasts at least as long as it did: if the ticket of an end is below that of a start,
/// the first call had ended before the second began, and every operation on a word is sequentially consistent. So a recording
/// of linearizable calls is linearizable. If a side has no room for a line, the recording ends before that line, for both
/// sides; what is left is a prefix of the whole.
///
/// In use: `lamport_ring run --record`.
#[derive(Drop)]
pub struct Recorder<'a> {
    tickets: AtomicU64,
    puts: Log<'a>,
    takes: Log<'a>,
}

impl<'a> Recorder<'a> {
    /// A recorder that has recorded nothing, with room for the lines of either side. A put takes as many slots as it has
    /// items, as does the end of a take that brought items, and any other line takes one.
    pub fn new(puts: &'a [Slot], takes: &'a [Slot]) -> Recorder<'a> {
        Recorder {
            tickets: AtomicU64::new(1),
            puts: Log::new(puts),
            takes: Log::new(takes),
        }
    }

    fn ticket(&self) -> u64 {
        self.tickets.fetch_add(1, Ordering::SeqCst)
    }

    /// Whether the recording lacks the later calls, because a side had no room for a line. It is for when the relay has ended.
    pub fn is_cut(&self) -> bool {
        self.puts.has_lost() || self.takes.has_lost()
    }

    /// The lines that were recorded, from the first on. It is for when the relay has ended.
    pub fn lines(&self) -> RecordedLines<'_> {
        let puts = self.puts.lost.load(Ordering::SeqCst);
        let takes = self.takes.lost.load(Ordering::SeqCst);
        RecordedLines {
            puts: self.puts.in_use(),
            takes: self.takes.in_use(),
            end: puts.min(takes),
            offered: 0,
        }
    }
}

impl Gate for Recorder<'_> {
    fn pass(&self, side: Side, count: u64) {
        YieldGate.pass(side, count);
    }

    fn hears(&self, event: Event<'_>) {
        let log = if event.is_of_producer() {
            &self.puts
        } else {
            &self.takes
        };
        let (word, ticket) = (event.word(), self.ticket());
        match event {
            Event::PutBegins(items)
            | Event::TakeEnds(Reply::Passed(items) | Reply::PassedSome(items)) => {
                log.add(ticket, word, items);
            }
            Event::PutEnds(Reply::Passed(count) | Reply::PassedSome(count))
            | Event::TakeBegins(count) => log.add(ticket, word, &[count as u64]),
            _ => log.add(ticket, word, &[0]),
        }
    }
}

// The ticket of the first of these slots, if there is one.
fn first_ticket(slots: &[Slot]) -> u64 {
    slots.first().map_or(NEVER, Slot::ticket)
}

// How many slots at the front have this ticket.
fn slots_of(slots: &[Slot], ticket: u64) -> usize
    ensures { result ≤ length slots.now }
{
    for (place, slot) in slots.iter().enumerate() {
        if slot.ticket() != ticket {
            return place;
        }
    }
    slots.len()
}

// The word of the first of these slots, if it is one that a relay may record.
fn word_of(slots: &[Slot]) -> Option<Word> {
    let mark = slots.first()?.mark.load(Ordering::SeqCst);
    Word::of_number((mark % WORDS) as u32)
}

// Reads the numbers of these slots, replacing what was there.
fn read_numbers<A: Allocator>(slots: &[Slot], numbers: &mut Vec<u64, A>) -> Result<(), AllocError> {
    numbers.clear();
    'slots: for slot in slots {
        numbers.push(slot.number.load(Ordering::SeqCst))?;
    }
    Ok(())
}

/// The lines of a recording not yet returned.
///
/// In use: `lamport_ring run --record`.
#[derive(Drop)]
pub struct RecordedLines<'r> {
    puts: &'r [Slot],
    takes: &'r [Slot],
    // The ticket before which the recording ends.
    end: u64,
    // How many items the last put offered.
    offered: u64,
}

impl RecordedLines<'_> {
    /// The next line, in the format of recorded calls: its word, with its numbers in `numbers`, replacing what was there. It
    /// is `None` after the last line, and an error only if memory for the numbers ran out.
    pub fn next<A: Allocator>(
        &mut self,
        numbers: &mut Vec<u64, A>,
    ) -> Result<Option<Word>, AllocError>
        ensures { IfOk result (λ read. IfSome read (λ word. IsFurther (line word numbers.new.items))) }
    {
        let put = first_ticket(self.puts);
        let take = first_ticket(self.takes);
        if put.min(take) >= self.end {
            return Ok(None);
        }
        let side = if put < take {
            &mut self.puts
        } else {
            &mut self.takes
        };
        let (line, rest) = side.split_at(slots_of(side, put.min(take)));
        *side = rest;
        let Some(word) = word_of(line) else {
            return Ok(None);
        };
        read_numbers(line, numbers)?;
        Ok(self.line(word, numbers))
    }

    // The line with this word, whose numbers are dropped if it has none, as when a put stored all that it offered.
    fn line<A: Allocator>(&mut self, word: Word, numbers: &mut Vec<u64, A>) -> Option<Word>
        ensures { IfSome result (λ word. IsFurther (line word numbers.new.items)) }
    {
        if word == Word::Put {
            self.offered = numbers.len() as u64;
        }
        let is_whole = word == Word::Stored && numbers.first() == Some(&self.offered);
        if is_whole || !allows(word, numbers.as_slice()) {
            numbers.clear();
        }
        let is_first = matches!(word, Word::Queue | Word::Cut);
        if is_first || !allows(word, numbers.as_slice()) {
            return None;
        }
        Some(word)
    }
}
