//! The calls of a play, as the text of a recording.
ghost use Rattle.std.specs.Prelude.{◌≡◌, drop, IfErr, IfOk, OnOk, string_bytes};
ghost use Rattle.bits_core.specs.Shape.{capacity_of};
ghost use Rattle.queue_calls.specs.Calls.{IsLinearizable};
ghost use Rattle.call_lines.specs.Lines.{AreSmall};
ghost use Rattle.queue_calls.specs.Queue.{exactly};
ghost use Rattle.queue_calls.specs.Recordings.{IsRecording};
ghost use Rattle.queue_calls.specs.Tellings.{TellsSmall};
ghost use Rattle.queue_calls.specs.Told.{event_by, told as event_told};
ghost use Rattle.ring_player.specs.Plays.{offered};
ghost use Rattle.ring_player.specs.Tellings.{call_events};
ghost use Rattle.ring_program.specs.Texts.{items_by, near_calls, told_text_of};

use crate::call_writing::{begun_behind, push_event};
use crate::faults::AppFault;
use crate::lines::push_list;
use near_misses::NearCall;
use queue_calls::{Begun, CallEvent, Event, Reply, Word};
use ring_player::{PlayedCall, Script, TakenItems};
use std::alloc::Allocator;

// The items that a put offers, after this many stored ones.
fn offered<B: Allocator>(script: &Script<B>, stored: usize) -> &[u64]
    ensures items { result.now ≡ offered script.now stored }
    ensures small { AreSmall result.now }
{
    let items = script.items();
    let further = &items[stored.min(items.len())..];
    let batch = script.shape().batch() as usize;
    &further[..batch.min(further.len())]
}

// What identifies the items that a take took.
pub(crate) trait Took {
    ghost use Rattle.std.specs.Prelude.{◌≡◌, ℕ, List};

    // The items, out of these.
    ghost took: { List ℕ → Self → List ℕ };

    fn items<'a>(&self, from: &'a [u64]) -> &'a [u64]
        ensures { result.now ≡ took from.now self.now };
}

// The first ones, this many.
impl Took for usize {
    ghost use Rattle.ring_program.specs.Texts.{first_items};

    ghost took = { first_items };

    fn items<'a>(&self, from: &'a [u64]) -> &'a [u64] {
        &from[..(*self).min(from.len())]
    }
}

// A number of them, after a number of others.
impl Took for TakenItems {
    ghost use Rattle.ring_program.specs.Texts.{items_behind};

    ghost took = { items_behind };

    fn items<'a>(&self, from: &'a [u64]) -> &'a [u64] {
        let further = &from[self.before.min(from.len())..];
        &further[..self.count.min(further.len())]
    }
}

// What was recorded, as an event with its items, which a take took out of these.
fn event_of<'a, B: Allocator, T: Took>(
    script: &'a Script<B>,
    from: &'a [u64],
    told: &CallEvent<usize, T>,
) -> Event<'a>
    ensures { event_told result ≡ event_by (offered script.now) (T.took from.now) told.now }
{
    match told {
        CallEvent::PutBegins(stored) => Event::PutBegins(offered(script, *stored)),
        CallEvent::PutEnds(reply) => Event::PutEnds(*reply),
        CallEvent::CloseBegins => Event::CloseBegins,
        CallEvent::CloseEnds => Event::CloseEnds,
        CallEvent::TakeBegins(wanted) => Event::TakeBegins(*wanted),
        CallEvent::TakeEnds(Reply::Passed(taken)) => {
            Event::TakeEnds(Reply::Passed(taken.items(from)))
        }
        CallEvent::TakeEnds(Reply::PassedSome(taken)) => {
            Event::TakeEnds(Reply::PassedSome(taken.items(from)))
        }
        CallEvent::TakeEnds(Reply::Lacked) => Event::TakeEnds(Reply::Lacked),
        CallEvent::TakeEnds(Reply::Short) => Event::TakeEnds(Reply::Short),
        CallEvent::TakeEnds(Reply::Nothing) => Event::TakeEnds(Reply::Nothing),
        CallEvent::TakeEnds(Reply::Shut) => Event::TakeEnds(Reply::Shut),
    }
}

// A line with the ring's capacity, and the lines of the starts and ends of the calls of a play.
fn told_text<A: Allocator, B: Allocator>(
    alloc: A,
    script: &Script<B>,
    told: &[PlayedCall],
) -> Result<String<A>, AppFault>
    ensures text { IfOk result (λ text. string_bytes text ≡ told_text_of script.now
        (call_events script.now told.now)) }
    ensures small { OnOk result (TellsSmall (call_events script.now told.now)) }
    ensures memory { IfErr result (λ e. e ≡ AppFault.OutOfMemory) }
{
    let mut text = String::new(alloc);
    push_list(&mut text, Word::Queue.text(), &[script.shape().capacity()])?;
    let mut begun = Begun::Nothing;
    let items = script.items();
    for each in told {
        let event = event_of(script, items, each);
        push_event(&mut text, begun, event)?;
        begun = begun_behind(begun, event);
    }
    Ok(text)
}

// The items after those of the event.
fn items_left<'a>(items: &'a [u64], told: &NearCall) -> &'a [u64]
    ensures { result.now ≡ drop (items_by told.now) items.now }
{
    match told {
        NearCall::TakeEnds(Reply::Passed(count)) => &items[(*count).min(items.len())..],
        _ => items,
    }
}

/// A line with the ring's capacity, and the lines of the starts and ends of the calls of a play by a near miss, whose
/// takes took these items.
pub fn near_text<A: Allocator, B: Allocator>(
    alloc: A,
    script: &Script<B>,
    told: &[NearCall],
    taken: &[u64],
) -> Result<String<A>, AppFault>
    ensures text { IfOk result (λ text. string_bytes text ≡ told_text_of script.now
        (near_calls script.now taken.now told.now)) }
    ensures memory { IfErr result (λ e. e ≡ AppFault.OutOfMemory) }
{
    let mut text = String::new(alloc);
    let capacity = script.shape().capacity();
    push_list(&mut text, Word::Queue.text(), &[capacity])?;
    let mut begun = Begun::Nothing;
    let mut left = taken;
    for each in told {
        let event = event_of(script, left, each);
        push_event(&mut text, begun, event)?;
        begun = begun_behind(begun, event);
        left = items_left(left, each);
    }
    Ok(text)
}

/// The text of a recording of the calls of a play, as a queue of the ring's capacity.
pub fn calls_text<A: Allocator, B: Allocator>(
    alloc: A,
    script: &Script<B>,
    told: &[PlayedCall],
) -> Result<String<A>, AppFault>
    requires linearizable { IsLinearizable (exactly (capacity_of script.now.shape)) (call_events script.now told.now) }
    ensures recording { IfOk result (λ text. IsRecording (string_bytes text) (exactly (capacity_of script.now.shape))
        (call_events script.now told.now)) }
    ensures memory { IfErr result (λ e. e ≡ AppFault.OutOfMemory) }
{
    // only for the proof: gives the bounds of the capacity
    let _capacity = script.shape().capacity();
    let text = told_text(alloc, script, told)?;
    Ok(text)
}
