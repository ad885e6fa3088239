//! The lines of recorded calls, as they are written.
ghost use Rattle.std.specs.Prelude.{◌≡◌, ◌++◌, IfErr, OnOk, string_bytes};
ghost use Rattle.call_lines.specs.Lines.{AreSmall};
ghost use Rattle.queue_calls.specs.Recordings.{begun_after, text_of};
ghost use Rattle.queue_calls.specs.Tellings.{line_of, numbers_in, offered_last};
ghost use Rattle.queue_calls.specs.Told.{told};
ghost use Rattle.ring_program.specs.Texts.{list_line};

use crate::faults::AppFault;
use crate::lines::push_list;
use queue_calls::{Begun, Event, Reply};
use std::alloc::Allocator;

/// What the producer began last, after this event.
pub fn begun_behind(begun: Begun, event: Event<'_>) -> Begun
    ensures { let line = line_of begun (told event.entry) in result ≡ begun_after begun line.word line.numbers }
{
    match event {
        Event::PutBegins(items) => Begun::Put(items.len()),
        Event::CloseBegins => Begun::Close,
        _ => begun,
    }
}

// How many items the put that began last offered.
fn offered_last(begun: Begun) -> usize
    ensures { result ≡ offered_last begun }
{
    match begun {
        Begun::Put(offered) => offered,
        Begun::Nothing | Begun::Close => 0,
    }
}

// A line of a word and items.
fn push_items<A: Allocator>(text: &mut String<A>, word: &str, items: &[u64]) -> Result<(), AppFault>
    ensures line { OnOk result (string_bytes text.new ≡ string_bytes text.old ++ list_line word.now items.now) }
    ensures small { AreSmall items.now }
    ensures err { IfErr result (λ e. e ≡ AppFault.OutOfMemory) }
{
    push_list(text, word, items)
}

/// The line of an event, if the producer began this last: a put that stored all that it offered has no number.
pub fn push_event<A: Allocator>(
    text: &mut String<A>,
    begun: Begun,
    event: Event<'_>,
) -> Result<(), AppFault>
    ensures line { OnOk result (string_bytes text.new ≡ string_bytes text.old ++ text_of
        (line_of begun (told event.entry))) }
    ensures small { AreSmall (numbers_in (told event.entry)) }
    ensures err { IfErr result (λ e. e ≡ AppFault.OutOfMemory) }
{
    let word = event.word().text();
    match event {
        Event::PutBegins(items) => push_items(text, word, items),
        Event::TakeEnds(Reply::Passed(items)) => push_items(text, word, items),
        Event::TakeEnds(Reply::PassedSome(items)) => push_items(text, word, items),
        Event::PutEnds(Reply::Passed(count)) if count < offered_last(begun) => push_list(
            text,
            word,
            &[count as u64],
        ),
        Event::PutEnds(Reply::PassedSome(count)) => push_list(text, word, &[count as u64]),
        Event::TakeBegins(wanted) if 1 < wanted => push_list(text, word, &[wanted as u64]),
        _ => push_list(text, word, &[]),
    }
}
