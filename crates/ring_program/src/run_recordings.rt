//! The recording of a run: each line of its recorder is audited, and compared with the result of the run, before it is written.
ghost use Rattle.std.specs.Prelude.{◌≡◌, ◌⊎◌, false, ◌+◌, ◌-◌, ◌<◌, ◌≤◌, ◌^◌, ◌∷◌, ◌++◌, IfErr, IfOk, IfSome, IsTrue, List, OnOk, [], if◌then◌else◌, length, string_bytes, take};
ghost use Rattle.bits_core.specs.Shape.{batch_of, capacity_of, take_batch_of};
ghost use Rattle.queue_calls.specs.Audits.{Audits};
ghost use Rattle.queue_calls.specs.Calls as calls;
ghost use Rattle.queue_calls.specs.Calls.{IsLinearizable, PutBegin, TakeEnd};
ghost use Rattle.queue_calls.specs.Order.{C, P};
ghost use Rattle.queue_calls.specs.Recordings.{first_word};
ghost use Rattle.queue_calls.specs.Told.{meant, reply_by, told};
ghost use Rattle.ring_program.specs.RunRecordings.{IsOfRun, RecordsRun, SaysWhy, nothing_left, room_with, run_counts};
ghost use Rattle.ring_program.specs.Untold.{TakesOff, left_of};

use crate::call_writing::{begun_behind, push_event};
use crate::faults::AppFault;
use crate::lines::push_list;
use bits_core::Shape;
use queue_calls::{Begun, CallAuditor, Event, Fault, Reply, Word, event_told, exactly};
use ring_run::{Outcome, Recorder};
use std::alloc::Allocator;
use std::collections::VecDeque;

/// How many lines of either side a recording has room for at most.
pub const RECORDED: usize = 1 << 21;

// Which part of a run has not been written yet.
#[derive(Clone, Copy)]
struct Untold<'r> {
    // the items not stored, and those taken
    items: &'r [u64],
    taken: &'r [u64],
    // how many items were stored, how many puts were made, and how many of them found the ring full
    put: u64,
    calls: u64,
    full: u64,
    // how many closes, and how many takes were made; how many of these found it empty, and how many returned Closed
    closes: u64,
    takes: u64,
    empty: u64,
    told: u64,
}

impl<'r> Untold<'r> {
    // All of it.
    fn all<A: Allocator>(items: &'r [u64], outcome: &'r Outcome<A>) -> Untold<'r>
        ensures items { result.items.now ≡ items.now }
        ensures left { left_of result ≡ run_counts items.now outcome.now.put outcome.now.calls outcome.now.full
            outcome.now.taken.items outcome.now.takes outcome.now.empty outcome.now.closed }
    {
        let told = if outcome.closed { 1 } else { 0 };
        let closes = if outcome.put == items.len() as u64 {
            1
        } else {
            0
        };
        Untold {
            items,
            taken: outcome.taken.as_slice(),
            put: outcome.put,
            calls: outcome.calls,
            full: outcome.full,
            closes,
            takes: outcome.takes,
            empty: outcome.empty,
            told,
        }
    }

    // What is left after a put of these items has begun, if they are the next ones.
    #[tactic(auto, using(crate::proofs::RunTelling::next_items, crate::proofs::RunTelling::offered_next))]
    fn behind_offer(self, shape: &Shape, offered: &[u64]) -> Option<Untold<'r>>
        ensures { IfSome result (λ after. (offered.now ≡ take (batch_of shape.now) self.entry.items.now) ×
            TakesOff self.entry (PutBegin offered.now) after) }
    {
        let batch = shape.batch() as usize;
        let next = &self.items[..batch.min(self.items.len())];
        if offered != next {
            return None;
        }
        let calls = self.calls.checked_sub(1)?;
        Some(Untold { calls, ..self })
    }

    // What is left after an event, if it is one of the run.
    fn behind(self, shape: &Shape, event: Event<'_>) -> Option<Untold<'r>>
        ensures { IfSome result (λ after. IsOfRun shape.now self.entry.items.now (told event.entry) ×
            TakesOff self.entry (told event.entry) after) }
    {
        match event {
            Event::PutBegins(offered) => self.behind_offer(shape, offered),
            Event::PutEnds(Reply::Passed(count)) => {
                let items = self.items.get(count..)?;
                let put = self.put.checked_sub(count as u64)?;
                Some(Untold { items, put, ..self })
            }
            Event::PutEnds(Reply::Lacked) => {
                let full = self.full.checked_sub(1)?;
                Some(Untold { full, ..self })
            }
            Event::CloseBegins => {
                if !self.items.is_empty() {
                    return None;
                }
                Some(self)
            }
            Event::CloseEnds => {
                let closes = self.closes.checked_sub(1)?;
                Some(Untold { closes, ..self })
            }
            Event::TakeBegins(wanted) => {
                if wanted < 1 || wanted as u64 > shape.take_batch() {
                    return None;
                }
                let takes = self.takes.checked_sub(1)?;
                Some(Untold { takes, ..self })
            }
            Event::TakeEnds(reply) => self.behind_take(reply),
            Event::PutEnds(Reply::PassedSome(_) | Reply::Short | Reply::Nothing | Reply::Shut) =>
                None,
        }
    }

    // What is left after the end of a take, if it is one of the run.
    fn behind_take(self, reply: Reply<&[u64]>) -> Option<Untold<'r>>
        ensures { IfSome result (λ after. SaysWhy (reply_by (λ items. items.now) reply.entry) ×
            TakesOff self.entry (TakeEnd (reply_by (λ items. items.now) reply.entry)) after) }
    {
        match reply {
            Reply::Passed(items) => {
                let taken = self.taken.strip_prefix(items)?;
                Some(Untold { taken, ..self })
            }
            Reply::Lacked => {
                let empty = self.empty.checked_sub(1)?;
                Some(Untold { empty, ..self })
            }
            Reply::Shut => {
                let told = self.told.checked_sub(1)?;
                Some(Untold { told, ..self })
            }
            Reply::PassedSome(_) | Reply::Short | Reply::Nothing => None,
        }
    }

    // Whether nothing is left.
    fn is_nothing(&self) -> bool
        ensures { IsTrue result → left_of self.now ≡ nothing_left }
    {
        self.put == 0
            && self.calls == 0
            && self.full == 0
            && self.closes == 0
            && self.takes == 0
            && self.empty == 0
            && self.told == 0
            && self.taken.is_empty()
    }

    // Whether something is left, although no log was full, or the logs had room for one more line.
    fn lacks_lines(&self, is_cut: bool, shape: &Shape, room: Room) -> bool
        ensures cut { result ≡ false → is_cut ≡ false → left_of self.now ≡ nothing_left }
        ensures whole { result ≡ false → batch_of shape.now ≤ room.puts → take_batch_of shape.now ≤ room.takes →
            left_of self.now ≡ nothing_left }
    {
        let had_room = shape.batch() <= room.puts as u64 && shape.take_batch() <= room.takes as u64;
        (!is_cut || had_room) && !self.is_nothing()
    }
}

// The room that is left in the logs of both sides.
#[derive(Clone, Copy)]
struct Room {
    puts: usize,
    takes: usize,
}

impl Room {
    // The room without this much.
    fn less(self, puts: usize, takes: usize) -> Room
        ensures { (result.puts ≡ self.puts - puts) × (result.takes ≡ self.takes - takes) }
    {
        Room {
            puts: self.puts.saturating_sub(puts),
            takes: self.takes.saturating_sub(takes),
        }
    }

    // What is left after the line of an event.
    fn behind(self, event: Event<'_>) -> Room
        ensures { (result.puts ≡ self.puts - room_with P (told event.entry)) ×
            (result.takes ≡ self.takes - room_with C (told event.entry)) }
    {
        match event {
            Event::PutBegins(items) => self.less(items.len(), 0),
            Event::PutEnds(_) | Event::CloseBegins | Event::CloseEnds => self.less(1, 0),
            Event::TakeEnds(Reply::Passed(items) | Reply::PassedSome(items)) => {
                self.less(0, items.len())
            }
            Event::TakeBegins(_)
            | Event::TakeEnds(Reply::Lacked | Reply::Short | Reply::Nothing | Reply::Shut) => {
                self.less(0, 1)
            }
        }
    }
}

// Audits an event.
fn audit<A: Allocator>(
    auditor: &mut CallAuditor<VecDeque<u64, A>>,
    event: Event<'_>,
) -> Result<(), AppFault>
    ensures capacity { auditor.new.capacity ≡ auditor.old.capacity }
    ensures read { OnOk result ((h : List calls.Event) → Audits (λ q. q.items) auditor.old h →
        Audits (λ q. q.items) auditor.new (h ++ told event.entry ∷ [])
        × IsLinearizable (meant auditor.old.capacity) (h ++ told event.entry ∷ [])) }
    ensures refused { IfErr result (λ e. (e ≡ AppFault.OutOfMemory) ⊎ (e ≡ AppFault.NotOfRun)) }
{
    match auditor.feed(event) {
        Ok(()) => Ok(()),
        Err(Fault::OutOfMemory) => Err(AppFault::OutOfMemory),
        Err(Fault::OutOfTurn | Fault::NotLinearizable) => Err(AppFault::NotOfRun),
    }
}

// The word of the first line, by whether the recording lacks the later calls.
fn first_word(is_cut: bool) -> Word
    ensures { result ≡ first_word is_cut }
{
    if is_cut { Word::Cut } else { Word::Queue }
}

/// The recording of a run, as one of a queue of the ring's capacity: the lines of its recorder, if these are calls of the run. It
/// says whether a log was full, so that the later calls are missing.
///
/// `NotOfRun` if they are not, or are too few, which does not occur by the argument of [`Recorder`].
pub fn recording_text<A: Allocator + Copy, B: Allocator>(
    alloc: A,
    shape: &Shape,
    items: &[u64],
    recorder: &Recorder<'_>,
    outcome: &Outcome<B>,
) -> Result<String<A>, AppFault>
    ensures text { IfOk result (λ text. RecordsRun shape.now items.now
        (run_counts items.now outcome.now.put outcome.now.calls outcome.now.full outcome.now.taken.items
        outcome.now.takes outcome.now.empty outcome.now.closed) (string_bytes text)) }
    ensures refused { IfErr result (λ e. (e ≡ AppFault.OutOfMemory) ⊎ (e ≡ AppFault.NotOfRun)) }
{
    let capacity = shape.capacity();
    let is_cut = recorder.is_cut();
    let mut text = String::new(alloc);
    push_list(&mut text, first_word(is_cut).text(), &[capacity])?;
    let mut auditor = CallAuditor::new(alloc, exactly(capacity as usize));
    auditor.has_read();
    let mut untold = Untold::all(items, outcome);
    let mut room = Room {
        puts: RECORDED,
        takes: RECORDED,
    };
    let mut begun = Begun::Nothing;
    let mut numbers = Vec::new(alloc);
    let mut lines = recorder.lines();
    'lines: for _ in 0..u64::MAX {
        let Some(word) = lines.next(&mut numbers)? else {
            break;
        };
        let Some(event) = event_told(begun, word, numbers.as_slice()) else {
            return Err(AppFault::NotOfRun);
        };
        let Some(left) = untold.behind(shape, event) else {
            return Err(AppFault::NotOfRun);
        };
        audit(&mut auditor, event)?;
        push_event(&mut text, begun, event)?;
        untold = left;
        room = room.behind(event);
        begun = begun_behind(begun, event);
    }
    if untold.lacks_lines(is_cut, shape, room) {
        return Err(AppFault::NotOfRun);
    }
    Ok(text)
}
