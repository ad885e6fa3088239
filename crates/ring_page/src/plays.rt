//! The play of a script.
ghost use Rattle.std.specs.Prelude.{◌≡◌, ◌<◌, ◌≤◌, ◌⊎◌, ℕ, List, length, min, take, IfOk, OnErr};
ghost use Rattle.bits_core.specs.declared.events.Event.{Event};
ghost use Rattle.bits_core.specs.declared.shapes.Shape.{Shape};
ghost use Rattle.bits_core.specs.Lawful.{IsLawful};
ghost use Rattle.ring_script.specs.Borrowed.{content_of, held_of};
ghost use Rattle.ring_page.specs.Audit.{AreMarksOf, IsNothingSeen};
ghost use Rattle.ring_page.specs.Play.{Fills, TellsFirstLetters, TellsPlay, TellsPlayFault, fields_of};

use crate::audits::{EVENT_ROOM, no_events, nothing_seen};
use crate::marks::{Mark, bit_number, put_marks};
use bits_core::{Event, Filled, Seen, Shape, Side, audit_bits_into};
use ring_player::{PlayFault, play_first};
use ring_script::{Fields, ITEM_LIMIT, LetterRun, ScriptFault, ScriptRef};

/// The most runs that the schedule of a script has on the page, and the most answers of its oracle.
pub const RUN_ROOM: usize = 1_000;

pub const ANSWER_ROOM: usize = 10_000;

/// The numbers of a script, and how many letters of its schedule are played.
#[repr(C)]
#[derive(Clone, Copy, PartialEq, Eq, Debug)]
pub struct Asked {
    pub capacity: u64,
    pub modulus: u64,
    pub width: u64,
    pub batch: u64,
    pub take_batch: u64,
    pub takes: u64,
    /// 0 for a script that does not close.
    pub closes: u64,
    pub letters: u64,
}

/// The result of a play, as numbers.
#[repr(C)]
#[derive(Clone, Copy, PartialEq, Eq, Debug)]
pub struct Played {
    /// 0 played, 2 not a script, or one for which the page has no room.
    pub outcome: u64,
    /// The number of the script's fault.
    pub number: u64,
    /// The place of an item, or of a byte, that is at fault.
    pub place: u64,
    /// The number of the shape's fault.
    pub shape_fault: u64,
    /// How many events the history has.
    pub count: u64,
    /// How many items were put, and how many taken.
    pub put: u64,
    pub taken: u64,
    /// 1 if a take returned Closed.
    pub told: u64,
    /// How many puts found the ring full, and how many takes found it empty.
    pub full: u64,
    pub empty: u64,
    /// How many overlapped reads ended.
    pub flickers: u64,
    /// How many letters the schedule represents.
    pub all_letters: u64,
}

/// A fault of a script, as numbers.
pub fn told_fault(fault: ScriptFault) -> Played
    ensures { TellsPlayFault fault result }
{
    let (place, shape_fault) = match fault {
        ScriptFault::Shape(shape_fault) => (0, u64::from(shape_fault.number())),
        ScriptFault::ItemTooWide(place)
        | ScriptFault::BadSchedule(place)
        | ScriptFault::BadOracle(place) => (place, 0),
        _ => (0, 0),
    };
    Played {
        outcome: 2,
        number: u64::from(fault.number()),
        place,
        shape_fault,
        count: 0,
        put: 0,
        taken: 0,
        told: 0,
        full: 0,
        empty: 0,
        flickers: 0,
        all_letters: 0,
    }
}

/// Writes the list into the room, as much of it as there is room for.
pub fn put_list(list: &[u64], room: &mut [u64])
    ensures { Fills list.now room.new }
{
    let count = list.len().min(room.len());
    room[..count].copy_from_slice(&list[..count]);
}

/// Writes the marks of a lawful history, as many as there is room for.
pub fn put_lawful(shape: &Shape, history: &[Event], marks: &mut [Mark])
    requires lawful { IsLawful shape.now history.now }
    requires few { length history.now ≤ EVENT_ROOM }
    ensures { AreMarksOf history.now (length history.now) marks.new }
{
    let mut seen = nothing_seen();
    audit_bits_into(shape, history, &mut seen);
    put_marks(history, &seen, marks);
}

// The result of the play of a script's first letters.
fn tell_play(
    script: ScriptRef<'_>,
    letters: u64,
    marks: &mut [Mark],
    put: &mut [u64],
    taken: &mut [u64],
) -> Result<Played, PlayFault>
    ensures played { IfOk result (TellsFirstLetters (content_of script.entry) letters marks.new put.new taken.new) }
    ensures refused { OnErr result (EVENT_ROOM < min letters (length (content_of script.entry).letters)) }
{
    let mut events = no_events();
    // As many more slots than items can be taken as a take may take, since a world requests these whenever an access of the
    // consumer ends.
    let mut taken_room = [0; ITEM_LIMIT + 64];
    script.items();
    let shape = script.shape();
    // only for the proof: gives the bounds of the capacity
    let _capacity = shape.capacity();
    // only for the proof: gives the bounds of the take batch
    let _take_batch = shape.take_batch();
    let report = play_first(
        script,
        letters,
        Filled::new(&mut events),
        Filled::new(&mut taken_room),
    )?;
    let history = report.history.into_slice();
    if history.len() > EVENT_ROOM {
        // This never happens, since the events are in that room.
        return Err(PlayFault::OutOfMemory);
    }
    let taken_items = report.taken.into_slice();
    put_lawful(&script.shape(), history, marks);
    put_list(report.put, put);
    put_list(taken_items, taken);
    Ok(Played {
        outcome: 0,
        number: 0,
        place: 0,
        shape_fault: 0,
        count: history.len() as u64,
        put: report.put.len() as u64,
        taken: taken_items.len() as u64,
        told: bit_number(report.told),
        full: report.full,
        empty: report.empty,
        flickers: report.flicker,
        all_letters: script.len(),
    })
}

/// The values of a script's fields.
pub fn fields<'a>(
    asked: &Asked,
    items: &'a [u64],
    schedule: &'a [u8],
    oracle: &'a [u8],
) -> Fields<'a>
    ensures { held_of result ≡ fields_of asked.now items.now schedule.now oracle.now }
{
    Fields {
        capacity: asked.capacity,
        modulus: asked.modulus,
        width: asked.width,
        items,
        takes: asked.takes,
        close: asked.closes != 0,
        schedule,
        oracle,
        batch: asked.batch,
        take_batch: asked.take_batch,
    }
}

/// Plays the first letters of the script whose fields have these values, from the start, and returns what was
/// played: the marks of the history's events, the items put and the items taken, as many as there is room for,
/// and the numbers of the report; or why it is not a script, or that it has more runs than `RUN_ROOM`, more
/// answers than `ANSWER_ROOM`, or a play of more letters than `EVENT_ROOM`. It takes no memory.
#[unsafe(no_mangle)]
pub extern "C" fn page_play(
    asked: &Asked,
    items: &[u64],
    schedule: &[u8],
    oracle: &[u8],
    marks: &mut [Mark],
    put: &mut [u64],
    taken: &mut [u64],
    told: &mut Played,
)
    ensures { TellsPlay (fields_of asked.now items.now schedule.now oracle.now) asked.now.letters marks.new put.new
        taken.new told.new }
{
    let fields = fields(asked, items, schedule, oracle);
    let blank = LetterRun {
        side: Side::P,
        count: 0,
    };
    let mut runs = [blank; RUN_ROOM];
    let mut answers = [false; ANSWER_ROOM];
    *told = match ScriptRef::of_fields(&fields, &mut runs, &mut answers) {
        Ok(script) => match tell_play(script, asked.letters, marks, put, taken) {
            Ok(told) => told,
            Err(PlayFault::OutOfMemory) => told_fault(ScriptFault::OutOfMemory),
        },
        Err(fault) => told_fault(fault),
    };
}
