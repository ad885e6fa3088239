//! The answer of `run`: items relayed through a ring by two threads.
ghost use Rattle.std.specs.Prelude.{◌≡◌, ◌≢◌, ◌⊎◌, ◌+◌, ◌++◌, ◌≤◌, ◌<◌, ◌^◌, IfErr, IfOk, OnOk, List, ℕ, if◌then◌else◌, length, option_and_then, option_map, string_bytes, take, false, true};
ghost use Rattle.std.specs.Duration.{as_nanos};
ghost use Rattle.bits_core.specs.Made.{IsPrefix};
ghost use Rattle.bits_core.specs.Shape.{AllFit, capacity_of};
ghost use Rattle.ring_run.specs.Relays.{IsRelayed};
ghost use Rattle.ring_program.specs.Answers.{AnswersRun, IsOutOfMemory, IsRunCause, TellsRun, relay_ending_of};
ghost use Rattle.ring_program.specs.Runs.{run_item, run_items, slots_of};
ghost use Rattle.ring_program.specs.Texts.{closed_line, pace_line, pace_of, relay_report_of, relay_text_of};
ghost use Rattle.ring_program.specs.declared.run_line.TheConstants.{ITEM_LIMIT};

use crate::answers::{Answer, Ending};
use crate::faults::{AppFault, Refusal};
use crate::lines::push_count;
use crate::run_line::{RingKind, Run, RunText};
use crate::run_recordings::{RECORDED, recording_text};
use bits_core::{Flip, Shape};
use ring_run::{
    Gate, Limits, Outcome, Recorder, RestGate, RunFault, Slot, relay_counter, relay_flicker,
};
use std::alloc::Allocator;
use std::io;
use std::thread::{self, Threads};
use std::time::{Clock, Duration, Instant};

// An item of this many binary digits.
fn run_item(width: u64, number: u64) -> u64
    ensures { result ≡ run_item width number }
{
    if width < 64 {
        number % (1 << width)
    } else {
        number
    }
}

// The items of a run.
fn items_of<A: Allocator>(alloc: A, run: &Run) -> Result<Vec<u64, A>, AppFault>
    ensures items { IfOk result (λ items. items.items ≡ run_items run.now) }
    ensures memory { IfErr result (λ e. e ≡ AppFault.OutOfMemory) }
{
    let mut items = Vec::with_capacity(alloc, run.count as usize)?;
    for number in 0..run.count {
        if items.push(run_item(run.width, number)).is_err() {
            return Err(AppFault::OutOfMemory);
        }
    }
    Ok(items)
}

// The line that says whether a take returned Closed.
fn closed_words(closed: bool) -> &'static str
    ensures { result.now ≡ closed_line closed }
{
    if closed {
        "closed yes\n"
    } else {
        "closed no\n"
    }
}

/// The text of a relay: a line each for how many items were put, how many were taken, and whether a take returned
/// Closed.
///
/// In use: `lamport_ring run`.
#[tactic(auto, using(std::proofs::Common::codes, crate::proofs::TextLemmas::behind))]
pub fn relay_text<A: Allocator, B: Allocator>(
    alloc: A,
    outcome: &Outcome<B>,
) -> Result<String<A>, AppFault>
    ensures text { IfOk result (λ text. string_bytes text ≡ relay_text_of outcome.now.put
        (length outcome.now.taken.items) outcome.now.closed) }
    ensures memory { IfErr result (λ e. e ≡ AppFault.OutOfMemory) }
{
    let mut text = String::new(alloc);
    push_count(&mut text, "put", outcome.put)?;
    push_count(&mut text, "taken", outcome.taken.len() as u64)?;
    text.push_str(closed_words(outcome.closed))?;
    Ok(text)
}

// Items per second, if this many were taken in this time.
fn pace_of(taken: u64, time: Duration) -> Option<u64>
    ensures { result ≡ pace_of taken (as_nanos time) }
{
    let nanos = time.as_nanos();
    if nanos == 0 {
        return None;
    }
    let pace = taken as u128 * 1_000_000_000 / nanos;
    u64::try_from(pace).ok()
}

// The line of the items taken per second.
fn push_pace<A: Allocator>(text: &mut String<A>, pace: Option<u64>) -> Result<(), AppFault>
    ensures ok { OnOk result (string_bytes text.new ≡ string_bytes text.old ++ pace_line pace) }
    ensures err { IfErr result (λ e. e ≡ AppFault.OutOfMemory) }
{
    match pace {
        Some(pace) => push_count(text, "items a second", pace),
        None => Ok(text.push_str("items a second unknown\n")?),
    }
}

/// The text of a relay and, after it, a line each for how many puts were made, how many of them found the ring full, how many
/// takes found it empty, and the items taken per second. The last is `unknown` if there is no time, if none passed, or if the
/// number has more than 64 bits.
///
/// In use: `lamport_ring run --report`.
pub fn relay_report<A: Allocator, B: Allocator>(
    alloc: A,
    outcome: &Outcome<B>,
    time: Option<Duration>,
) -> Result<String<A>, AppFault>
    ensures text { IfOk result (λ text. string_bytes text ≡ relay_report_of outcome.now.put outcome.now.calls
        outcome.now.full
        (length outcome.now.taken.items) outcome.now.empty outcome.now.closed (option_map as_nanos time)) }
    ensures memory { IfErr result (λ e. e ≡ AppFault.OutOfMemory) }
{
    let taken = outcome.taken.len() as u64;
    let pace = time.and_then(|time| pace_of(taken, time));
    let mut text = relay_text(alloc, outcome)?;
    push_count(&mut text, "calls", outcome.calls)?;
    push_count(&mut text, "full", outcome.full)?;
    push_count(&mut text, "empty", outcome.empty)?;
    push_pace(&mut text, pace)?;
    Ok(text)
}

// The text of a run.
fn run_text<A: Allocator + Copy, B: Allocator>(
    alloc: A,
    text: RunText,
    shape: &Shape,
    items: &[u64],
    recorder: &Recorder<'_>,
    outcome: &Outcome<B>,
    time: Option<Duration>,
) -> Result<String<A>, AppFault>
    ensures text { IfOk result (λ told. TellsRun text shape.now items.now outcome.now.put outcome.now.calls
        outcome.now.full
        outcome.now.taken.items outcome.now.takes outcome.now.empty outcome.now.closed (option_map as_nanos time)
        (string_bytes told)) }
    ensures refused { IfErr result (λ e. (e ≡ AppFault.OutOfMemory) ⊎
        ((e ≡ AppFault.NotOfRun) × (text ≡ RunText.Recording))) }
{
    match text {
        RunText::Totals => relay_text(alloc, outcome),
        RunText::Report => relay_report(alloc, outcome, time),
        RunText::Recording => recording_text(alloc, shape, items, recorder, outcome),
    }
}

// How many lines of one side are recorded at most.
fn slots_of(text: RunText) -> usize
    ensures { result ≡ slots_of text }
{
    match text {
        RunText::Totals | RunText::Report => 0,
        RunText::Recording => RECORDED,
    }
}

// Room for the lines of one side.
fn slots_for<A: Allocator>(alloc: A, text: RunText) -> Result<Vec<Slot, A>, AppFault>
    ensures room { IfOk result (λ slots. length slots.items ≡ slots_of text) }
    ensures memory { IfErr result (λ e. e ≡ AppFault.OutOfMemory) }
{
    let count = slots_of(text);
    let mut slots = Vec::with_capacity(alloc, count)?;
    for _ in 0..count {
        if slots.push(Slot::new()).is_err() {
            return Err(AppFault::OutOfMemory);
        }
    }
    Ok(slots)
}

// The time since the start, if the clock returned both.
fn time_since<C: Clock>(clock: &C, start: io::Result<Instant>) -> Option<Duration> {
    match start {
        Ok(start) => start.elapsed(clock).ok(),
        Err(_) => None,
    }
}

// Whether a second thread can be started: one is started and does nothing.
// Without a second thread the kit's `join_mut` runs one closure after the other, and does not say so.
fn find_second_thread<R: Threads>(rt: &R) -> Result<(), Refusal>
    ensures refused { IfErr result (λ e. e ≡ Refusal.NoSecondThread) }
{
    match thread::spawn(rt, || ()) {
        Ok(second) => {
            second.join(rt);
            Ok(())
        }
        Err(_refused) => Err(Refusal::NoSecondThread),
    }
}

// How a run ends: a take returned Closed, or a side reached its limit. Otherwise each side ended because it saw that the other made
// no more calls, one of them before the other began: the thread that was available before could not be started again.
fn relay_ending<A: Allocator>(limits: Limits, outcome: &Outcome<A>) -> Result<Ending, Refusal>
    ensures ending { IfOk result (λ ending. ending ≡ relay_ending_of outcome.now.closed) }
    ensures reached { OnOk result ((outcome.now.closed ≡ true) ⊎ ((outcome.now.calls ≡ limits.puts) ⊎
        (length outcome.now.taken.items + outcome.now.empty ≡ limits.takes))) }
    ensures refused { IfErr result (λ e. (e ≡ Refusal.NoSecondThread) × (outcome.now.closed ≡ false) ×
        (outcome.now.calls ≢ limits.puts)) }
{
    if outcome.closed {
        return Ok(Ending::Done);
    }
    let used = outcome.empty.checked_add(outcome.taken.len() as u64);
    if outcome.calls == limits.puts || used == Some(limits.takes) {
        Ok(Ending::LimitReached)
    } else {
        Err(Refusal::NoSecondThread)
    }
}

// Relays the items through a new ring of this kind. If its loads do not agree, an end of a flickering ring answers 0 and 1
// in turn.
fn relay_by_kind<R: Threads, A: Allocator + Copy, G: Gate + Sync>(
    rt: &R,
    alloc: A,
    ring: RingKind,
    shape: Shape,
    items: &[u64],
    limits: Limits,
    gate: &G,
) -> Result<Outcome<A>, RunFault>
    requires fit { AllFit shape items.now }
    ensures counted { IfOk result (λ r. IsRelayed shape items.now limits.puts limits.takes r.put r.calls r.full
        r.taken.items r.takes r.empty r.closed) }
    ensures prefix { IfOk result (λ r. IsPrefix r.taken.items (take r.put items.now)) }
    ensures all { IfOk result (λ r. r.closed ≡ true → (r.put ≡ length items.now) × (r.taken.items ≡ items.now)) }
    ensures within { IfOk result (λ r. r.put ≤ length r.taken.items + capacity_of shape) }
{
    match ring {
        RingKind::Flicker => relay_flicker(
            rt,
            alloc,
            shape,
            Flip::new(),
            Flip::new(),
            items,
            limits,
            gate,
        ),
        RingKind::Counter => relay_counter(rt, alloc, shape, items, limits, gate),
    }
}

// The same, with the calls recorded if requested, and otherwise with pauses when a side has to wait.
fn relay_run<R: Threads, A: Allocator + Copy>(
    rt: &R,
    alloc: A,
    run: &Run,
    shape: Shape,
    items: &[u64],
    recorder: &Recorder<'_>,
) -> Result<Outcome<A>, RunFault>
    requires fit { AllFit shape items.now }
    ensures counted { IfOk result (λ r. IsRelayed shape items.now run.now.limits.puts run.now.limits.takes r.put r.calls
        r.full r.taken.items r.takes r.empty r.closed) }
    ensures prefix { IfOk result (λ r. IsPrefix r.taken.items (take r.put items.now)) }
    ensures all { IfOk result (λ r. r.closed ≡ true → (r.put ≡ length items.now) × (r.taken.items ≡ items.now)) }
    ensures within { IfOk result (λ r. r.put ≤ length r.taken.items + capacity_of shape) }
{
    match run.text {
        RunText::Totals | RunText::Report => {
            let gate = RestGate::for_ring(&shape);
            relay_by_kind(rt, alloc, run.ring, shape, items, run.limits, &gate)
        }
        RunText::Recording => {
            relay_by_kind(rt, alloc, run.ring, shape, items, run.limits, recorder)
        }
    }
}

/// The answer of a run.
#[tactic(auto, unfolding(crate::specs::Answers::IsOutOfMemory))]
pub fn run_answer<R: Threads + Clock, A: Allocator + Copy>(
    rt: &R,
    alloc: A,
    run: Run,
) -> Result<Answer<A>, Refusal>
    ensures answered { IfOk result (λ answer. AnswersRun run (string_bytes answer.text) answer.ending) }
    ensures refused { IfErr result (IsRunCause run) }
{
    let shape = Shape::with_batches(
        run.capacity,
        run.modulus,
        run.width,
        run.batch,
        run.take_batch,
    )?;
    find_second_thread(rt)?;
    let items = items_of(alloc, &run)?;
    let puts = slots_for(alloc, run.text)?;
    let takes = slots_for(alloc, run.text)?;
    let recorder = Recorder::new(puts.as_slice(), takes.as_slice());
    let start = Instant::now(rt);
    let offered = items.as_slice();
    let outcome = relay_run(rt, alloc, &run, shape, offered, &recorder)?;
    let time = time_since(rt, start);
    let ending = relay_ending(run.limits, &outcome)?;
    let text = run_text(alloc, run.text, &shape, offered, &recorder, &outcome, time)?;
    Ok(Answer { text, ending })
}
