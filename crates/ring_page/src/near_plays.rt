//! The play of a script by a near miss.
ghost use Rattle.std.specs.Prelude.{◌≡◌, ◌<◌, length, map, min, take, IfOk, OnErr};
ghost use Rattle.ring_script.specs.Borrowed.{content_of};
ghost use Rattle.ring_page.specs.NearPlay.{TellsNearLetters, TellsNearPlay, near_numbered, near_refused, no_near_miss, said_by, said_in};
ghost use Rattle.ring_page.specs.Play.{TellsPlayFault, fields_of};

use crate::audits::{EVENT_ROOM, no_events};
use crate::marks::Mark;
use crate::plays::{
    ANSWER_ROOM, Asked, Played, RUN_ROOM, fields, put_lawful, put_list, told_fault,
};
use bits_core::{Filled, Side};
use near_misses::{NearCall, NearFault, NearMiss, play_near_first};
use queue_calls::Reply;
use ring_script::{LetterRun, ScriptFault, ScriptRef};

/// A start or an end of a call, as numbers.
#[repr(C)]
#[derive(Clone, Copy, PartialEq, Eq, Debug)]
pub struct Telling {
    /// The number of the word of its line (`queue_calls::Word`).
    pub word: u64,
    /// For the start of a put, how many items of the script are stored; for its end, how many it stored; for the start of a take, how
    /// many items it asks for; for its end, how many it took. Otherwise 0.
    pub number: u64,
}

/// The result of a play by a near miss, as numbers.
#[repr(C)]
#[derive(Clone, Copy, PartialEq, Eq, Debug)]
pub struct NearPlayed {
    /// 0 played, 2 not a script, or one for which the page has no room, 3 not a near miss.
    pub outcome: u64,
    /// The number of the script's fault.
    pub number: u64,
    /// The place of an item, or of a byte, that is at fault.
    pub place: u64,
    /// The number of the shape's fault.
    pub shape_fault: u64,
    /// How many events the history has.
    pub count: u64,
    /// How many starts and ends of calls are recorded.
    pub told: u64,
    /// How many items were taken.
    pub taken: u64,
    /// How many letters the schedule represents.
    pub all_letters: u64,
    /// The number at which the counts wrap.
    pub modulus: u64,
}

// The near miss with this number.
fn near_numbered(number: u64) -> Option<NearMiss>
    ensures { result ≡ near_numbered number }
{
    match number {
        1 => Some(NearMiss::CountBeforeCell),
        2 => Some(NearMiss::NoSecondScan),
        3 => Some(NearMiss::SmallModulus),
        4 => Some(NearMiss::ClearsFirst),
        5 => Some(NearMiss::ClearsUpwards),
        _ => None,
    }
}

// A start or an end of a call, as numbers.
fn telling_of(event: NearCall) -> Telling
    ensures { said_in result ≡ said_by event }
{
    let number = match event {
        NearCall::PutBegins(count)
        | NearCall::PutEnds(Reply::Passed(count) | Reply::PassedSome(count))
        | NearCall::TakeBegins(count) => count as u64,
        NearCall::TakeEnds(Reply::Passed(taken) | Reply::PassedSome(taken)) => taken as u64,
        _ => 0,
    };
    Telling {
        word: u64::from(event.word().number()),
        number,
    }
}

// Writes what is recorded into the room, as much of it as there is room for.
fn put_tellings(calls: &[NearCall], tellings: &mut [Telling])
    ensures { map said_in (take (length calls.now) tellings.new) ≡ map said_by (take (length tellings.new) calls.now) }
{
    for i in 0..calls.len().min(tellings.len()) {
        tellings[i] = telling_of(calls[i]);
    }
}

// The result of the play of a script's first letters.
fn tell_near_play(
    miss: NearMiss,
    script: ScriptRef<'_>,
    letters: u64,
    marks: &mut [Mark],
    tellings: &mut [Telling],
    taken: &mut [u64],
) -> Result<NearPlayed, NearFault>
    ensures played { IfOk result (TellsNearLetters miss (content_of script.entry) letters marks.new tellings.new
        taken.new) }
    ensures refused { OnErr result (EVENT_ROOM < min letters (length (content_of script.entry).letters)) }
{
    let mut events = no_events();
    let mut told_room = [NearCall::PutEnds(Reply::Lacked); EVENT_ROOM];
    let mut taken_room = [0; EVENT_ROOM];
    let play = play_near_first(
        miss,
        script,
        letters,
        Filled::new(&mut events),
        Filled::new(&mut told_room),
        Filled::new(&mut taken_room),
    )?;
    let history = play.history.into_slice();
    let calls = play.told.into_slice();
    let items = play.taken.into_slice();
    let shape = script.shape();
    if history.len() > EVENT_ROOM {
        // This never happens, since the events are in that room.
        return Err(NearFault::OutOfMemory);
    }
    put_lawful(&shape, history, marks);
    put_tellings(calls, tellings);
    put_list(items, taken);
    Ok(NearPlayed {
        outcome: 0,
        number: 0,
        place: 0,
        shape_fault: 0,
        count: history.len() as u64,
        told: calls.len() as u64,
        taken: items.len() as u64,
        all_letters: script.len(),
        modulus: miss.modulus(&shape),
    })
}

fn near_refused(fault: ScriptFault) -> NearPlayed
    ensures { (told : Played) × TellsPlayFault fault told × (result ≡ near_refused told) }
{
    let told = told_fault(fault);
    NearPlayed {
        outcome: told.outcome,
        number: told.number,
        place: told.place,
        shape_fault: told.shape_fault,
        count: 0,
        told: 0,
        taken: 0,
        all_letters: 0,
        modulus: 0,
    }
}

/// Plays the first letters of the script whose fields have these values by the near miss with this number, from 1, in the order of
/// [`NearMiss`]: the marks of the history's events, the starts and ends of calls, and the items taken, as many as there is room for; or
/// why it is not a script, as [`page_play`](crate::page_play) returns it. It takes no memory.
#[unsafe(no_mangle)]
pub extern "C" fn page_play_near(
    miss: u64,
    asked: &Asked,
    items: &[u64],
    schedule: &[u8],
    oracle: &[u8],
    marks: &mut [Mark],
    tellings: &mut [Telling],
    taken: &mut [u64],
    told: &mut NearPlayed,
)
    ensures { TellsNearPlay (near_numbered miss) (fields_of asked.now items.now schedule.now oracle.now)
        asked.now.letters marks.new tellings.new taken.new told.new }
{
    let Some(miss) = near_numbered(miss) else {
        *told = NearPlayed {
            outcome: 3,
            number: 0,
            place: 0,
            shape_fault: 0,
            count: 0,
            told: 0,
            taken: 0,
            all_letters: 0,
            modulus: 0,
        };
        return;
    };
    let fields = fields(asked, items, schedule, oracle);
    let blank = LetterRun {
        side: Side::P,
        count: 0,
    };
    let mut runs = [blank; RUN_ROOM];
    let mut answers = [false; ANSWER_ROOM];
    *told = match ScriptRef::of_fields(&fields, &mut runs, &mut answers) {
        Ok(script) => match tell_near_play(miss, script, asked.letters, marks, tellings, taken) {
            Ok(told) => told,
            Err(NearFault::OutOfMemory) => near_refused(ScriptFault::OutOfMemory),
        },
        Err(fault) => near_refused(fault),
    };
}
