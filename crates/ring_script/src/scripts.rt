//! Scripts, and how they are read.
ghost use Rattle.std.specs.Prelude.{◌≡◌, ◌⊎◌, ◌<◌, ◌≤◌, ◌==◌, Ok, Err, IfOk, IfErr, MatchResult, [], length, map, position, slice_get};
ghost use Rattle.serde_json.specs.View.{view};
ghost use Rattle.bits_core.specs.Shape.{HasBatches, width_of};
ghost use Rattle.ring_script.specs.Schedule.{run_count, spelled};
ghost use Rattle.ring_script.specs.Borrowed.{content_of, content_read, held_of};
ghost use Rattle.ring_script.specs.Content.{Content, content_with};
ghost use Rattle.ring_script.specs.Script.{Fit, IsScript};
ghost use Rattle.ring_script.specs.ScriptReading.{given_by, given_in, given_of, is_no_answer, is_too_wide, items_within, json_of, oracle_of, schedule_of, script_of, shape_in};
ghost use Rattle.ring_script.specs.Faults.{IsScriptFault};
ghost use Rattle.ring_script.specs.Views.{IsKept, typed_view};

use crate::borrowed::{Fields, ScriptRef};
use crate::faults::ScriptFault;
use crate::fields::{Typed, check_kinds, check_names, find_values};
use crate::schedules::{LETTER_LIMIT, LetterRun, first_stray, letter_at, letter_count, runs};
use crate::stores::push;
use bits_core::{Filled, Shape, Side, Store};
use serde_json::Value;
use std::alloc::{Allocator, Global};
use std::marker::Model;

/// The most items that a script may have.
///
/// For example, a script whose list has one more item is refused.
pub const ITEM_LIMIT: usize = 1_000;

/// An interleaving of the two sides of a ring, to be played.
///
/// In use: `uses::plays::takes_of`.
#[derive(Drop)]
pub struct Script<A: Allocator> {
    shape: Shape,
    items: Vec<u64, A>,
    takes: u64,
    closes: bool,
    runs: Vec<LetterRun, A>,
    letters: u64,
    oracle: Vec<bool, A>,
}

impl<A: Allocator> Model for Script<A> {
    ghost Value = { Content };

    ghost view = { λ s. content_with s.shape s.items.items s.takes s.closes (spelled s.runs.items) s.oracle.items };

    ghost invariant = { λ s. IsKept s.shape s.items.items s.letters (spelled s.runs.items) };
}

impl<A: Allocator> Script<A> {
    /// The script, borrowed.
    pub fn as_ref(&self) -> ScriptRef<'_>
        ensures { content_of result ≡ self.now }
    {
        ScriptRef {
            shape: self.shape,
            items: &self.items,
            takes: self.takes,
            closes: self.closes,
            runs: &self.runs,
            letters: self.letters,
            oracle: &self.oracle,
        }
    }

    /// The shape of the ring.
    pub fn shape(&self) -> Shape
        ensures { result ≡ self.now.shape }
    {
        self.shape
    }

    /// The items to put, in order: at most `ITEM_LIMIT`, and each fits the shape.
    pub fn items(&self) -> &[u64]
        ensures value { result.now ≡ self.now.items }
        ensures few { length result.now ≤ ITEM_LIMIT }
        ensures fit { Fit (width_of self.now.shape) result.now }
    {
        &self.items
    }

    /// How many items the consumer asks for. It may be any number.
    pub fn takes(&self) -> u64
        ensures { result ≡ self.now.takes }
    {
        self.takes
    }

    /// Whether the producer closes after the last item.
    pub fn closes(&self) -> bool
        ensures { result ≡ self.now.closes }
    {
        self.closes
    }

    /// How many letters the schedule represents, at most `LETTER_LIMIT`. It may be 0.
    pub fn len(&self) -> u64
        ensures value { result ≡ length self.now.letters }
        ensures short { result ≤ LETTER_LIMIT }
    {
        self.letters
    }

    /// The side that the schedule's letter at a place, counted from 0, names; `None` past the last
    /// letter.
    pub fn letter(&self, place: u64) -> Option<Side>
        ensures { result ≡ slice_get self.now.letters place }
    {
        letter_at(&self.runs, place)
    }

    /// The schedule as runs of one letter each, in order: the letters that [`letter`](Self::letter) returns one by one.
    pub fn runs(&self) -> &[LetterRun]
        ensures { spelled result.now ≡ self.now.letters }
    {
        &self.runs
    }

    /// The answers of overlapped reads, in order, true for `1`. There may be none.
    pub fn oracle(&self) -> &[bool]
        ensures { result.now ≡ self.now.oracle }
    {
        &self.oracle
    }

    /// Reads a script: one JSON object with the fields of `Field` and no other, in any order; `batch` and
    /// `take_batch` may be left out, and are then 1. If a name occurs twice, the last value counts.
    ///
    /// `capacity`, `modulus`, `width`, `takes`, `batch` and `take_batch` are whole numbers below 2 to the power
    /// of 64, and `items` is an array of such. `close` is true or false. `schedule` is a text of letters `P`
    /// and `C`, each with or without a count; a count is a digit 1 to 9 and any further digits, and a letter
    /// without a count represents one. `oracle` is a text of `0` and `1`.
    ///
    /// The first fault is reported, in this order: the bytes are not JSON; they are not an object; a
    /// field is unknown; a field is missing, then of the wrong kind, each the first in the order of
    /// `Field`; the five numbers make no shape; there are too many items; an item is too wide, the
    /// first; a byte of the schedule is wrong, the first; the schedule is too long; a byte of the
    /// oracle is wrong, the first. Out of memory is reported if a growth was refused. What the script
    /// keeps is from `alloc`; the JSON value, which is made from all the bytes and freed again, is
    /// from `json`.
    pub fn read_in(alloc: A, json: Global, bytes: &[u8]) -> Result<Script<A>, ScriptFault>
    where
        A: Copy,
        // What is read is the script that the bytes are.
        ensures read { IfOk result (λ script. IsScript bytes.now script) }
        // Each script is read, and with this content only, unless memory ran out.
        ensures only { (content : Content) → IsScript bytes.now content
            → MatchResult result (λ script. script ≡ content) (λ e. e ≡ ScriptFault.OutOfMemory) }
        // What is refused has the reported fault, unless memory ran out.
        ensures refused { IfErr result (λ e. (e ≡ ScriptFault.OutOfMemory) ⊎ IsScriptFault bytes.now e) }
    {
        read_bytes(alloc, json, bytes)
    }
}

impl Script<Global> {
    /// Reads a script, with one allocator for all: [`read_in`](Script::read_in) says what a script is
    /// and which fault is reported.
    pub fn read(alloc: Global, bytes: &[u8]) -> Result<Script<Global>, ScriptFault>
        ensures read { IfOk result (λ script. IsScript bytes.now script) }
        ensures only { (content : Content) → IsScript bytes.now content
            → MatchResult result (λ script. script ≡ content) (λ e. e ≡ ScriptFault.OutOfMemory) }
        ensures refused { IfErr result (λ e. (e ≡ ScriptFault.OutOfMemory) ⊎ IsScriptFault bytes.now e) }
    {
        Script::read_in(alloc, alloc, bytes)
    }
}

// The script that the bytes are, part by part.
#[tactic(auto, unfolding(crate::specs::ScriptReading::script_of))]
fn read_bytes<A: Allocator + Copy>(
    alloc: A,
    json: Global,
    bytes: &[u8],
) -> Result<Script<A>, ScriptFault>
    ensures read { IfOk result (λ script. script_of bytes.now ≡ Ok (given_by script)) }
    ensures refused { IfErr result (λ e. (e ≡ ScriptFault.OutOfMemory) ⊎ (script_of bytes.now ≡ Err e)) }
{
    let value = parse(json, bytes)?;
    read_value(alloc, &value)
}

// The JSON value of the bytes.
#[tactic(auto, unfolding(crate::specs::ScriptReading::json_of))]
fn parse(alloc: Global, bytes: &[u8]) -> Result<Value, ScriptFault>
    ensures read { IfOk result (λ value. json_of bytes.now ≡ Ok (view value)) }
    ensures refused { IfErr result (λ e. (e ≡ ScriptFault.OutOfMemory) ⊎ (json_of bytes.now ≡ Err e)) }
{
    match Value::from_slice(alloc, bytes) {
        Ok(value) => Ok(value),
        Err(error) => {
            if error.is_memory() {
                Err(ScriptFault::OutOfMemory)
            } else {
                Err(ScriptFault::NotJson)
            }
        }
    }
}

// The script that a JSON value is.
#[tactic(auto, unfolding(crate::specs::ScriptReading::given_in))]
fn read_value<A: Allocator + Copy>(alloc: A, value: &Value) -> Result<Script<A>, ScriptFault>
    ensures read { IfOk result (λ script. given_in (view value.now) ≡ Ok (given_by script)) }
    ensures refused { IfErr result (λ e. (e ≡ ScriptFault.OutOfMemory) ⊎ (given_in (view value.now) ≡ Err e)) }
{
    check_names(value)?;
    let values = find_values(value)?;
    let typed = check_kinds(alloc, &values)?;
    read_typed(alloc, typed)
}

// The script whose fields have these values.
fn read_typed<A: Allocator + Copy>(alloc: A, typed: Typed<'_, A>) -> Result<Script<A>, ScriptFault>
    ensures read { IfOk result (λ script. given_of (typed_view typed.entry) ≡ Ok (given_by script)) }
    ensures refused { IfErr result (λ e. (e ≡ ScriptFault.OutOfMemory) ⊎ (given_of (typed_view typed.entry) ≡ Err e)) }
{
    let (shape, runs, oracle) = read_texts(alloc, &typed)?;
    let letters = letter_count(&runs);
    Ok(Script {
        shape,
        items: typed.items,
        takes: typed.takes,
        closes: typed.close,
        runs,
        letters,
        oracle,
    })
}

// The shape, the runs of the schedule and the answers of the oracle, if the items fit too.
#[tactic(auto, unfolding(crate::specs::ScriptReading::given_of))]
fn read_texts<A: Allocator + Copy>(
    alloc: A,
    typed: &Typed<'_, A>,
) -> Result<(Shape, Vec<LetterRun, A>, Vec<bool, A>), ScriptFault>
    ensures read { IfOk result (λ x. given_of (typed_view typed.now) ≡ Ok
        (given_by (content_read (typed_view typed.now) x.0 (spelled x.1.items) x.2.items))) }
    ensures items { IfOk result (λ x. items_within (width_of x.0) typed.now.items.items ≡ Ok tt) }
    ensures within { IfOk result (λ x. length (spelled x.1.items) ≤ LETTER_LIMIT) }
    ensures refused { IfErr result (λ e. (e ≡ ScriptFault.OutOfMemory) ⊎ (given_of (typed_view typed.now) ≡ Err e)) }
{
    let shape = read_shape(
        typed.capacity,
        typed.modulus,
        typed.width,
        typed.batch,
        typed.take_batch,
    )?;
    check_items(&shape, &typed.items)?;
    let runs = read_schedule(Vec::new(alloc), typed.schedule.as_bytes())?;
    let oracle = read_oracle(Vec::new(alloc), typed.oracle.as_bytes())?;
    Ok((shape, runs, oracle))
}

// The script of the values of its fields, with its runs and its answers in these stores, which are empty.
#[tactic(auto, unfolding(crate::specs::ScriptReading::given_of))]
pub(crate) fn read_parts<'a>(
    fields: &Fields<'a>,
    runs: &'a mut [LetterRun],
    answers: &'a mut [bool],
) -> Result<ScriptRef<'a>, ScriptFault>
    ensures read { IfOk result (λ script. given_of (held_of fields.now) ≡ Ok (given_by (content_of script))) }
    ensures refused { IfErr result (λ e. ((e ≡ ScriptFault.OutOfMemory) ×
        ((length runs.old < run_count fields.now.schedule.now) ⊎ (length answers.old < length fields.now.oracle.now))) ⊎
        (given_of (held_of fields.now) ≡ Err e)) }
{
    let shape = read_shape(
        fields.capacity,
        fields.modulus,
        fields.width,
        fields.batch,
        fields.take_batch,
    )?;
    check_items(&shape, fields.items)?;
    let runs = read_schedule(Filled::new(runs), fields.schedule)?.into_slice();
    let oracle = read_oracle(Filled::new(answers), fields.oracle)?.into_slice();
    let letters = letter_count(runs);
    Ok(ScriptRef {
        shape,
        items: fields.items,
        takes: fields.takes,
        closes: fields.close,
        runs,
        letters,
        oracle,
    })
}

// The shape of the five numbers.
fn read_shape(
    capacity: u64,
    modulus: u64,
    width: u64,
    batch: u64,
    take_batch: u64,
) -> Result<Shape, ScriptFault>
    ensures accepted { IfOk result (λ _. shape_in capacity modulus width batch take_batch ≡ Ok tt) }
    ensures made { IfOk result (HasBatches capacity modulus width batch take_batch) }
    ensures refused { IfErr result (λ e. shape_in capacity modulus width batch take_batch ≡ Err e) }
{
    match Shape::with_batches(capacity, modulus, width, batch, take_batch) {
        Ok(shape) => Ok(shape),
        Err(fault) => Err(ScriptFault::Shape(fault)),
    }
}

// Whether the shape's cells cannot hold the item.
fn is_wide(shape: &Shape, item: u64) -> bool
    ensures { result ≡ is_too_wide (width_of shape.now) item }
{
    !shape.fits(item)
}

// The place of the first item that is too wide.
fn first_too_wide(shape: &Shape, items: &[u64]) -> Option<usize>
    ensures { result ≡ position (is_too_wide (width_of shape.now)) items.now }
{
    items.iter().position(|item| is_wide(shape, *item))
}

// Whether there are few enough items, and each fits the shape.
#[tactic(auto, unfolding(crate::specs::ScriptReading::items_within))]
fn check_items(shape: &Shape, items: &[u64]) -> Result<(), ScriptFault>
    ensures { result ≡ items_within (width_of shape.now) items.now }
{
    if items.len() > ITEM_LIMIT {
        return Err(ScriptFault::TooManyItems);
    }
    match first_too_wide(shape, items) {
        Some(place) => Err(ScriptFault::ItemTooWide(place as u64)),
        None => Ok(()),
    }
}

// The runs of the schedule's letters, in an empty store.
#[tactic(auto, unfolding(crate::specs::ScriptReading::schedule_of))]
fn read_schedule<S: Store<LetterRun>>(store: S, text: &[u8]) -> Result<S, ScriptFault>
    requires empty { S.items store ≡ [] }
    ensures read { IfOk result (λ runs. schedule_of text.now ≡ Ok (spelled (S.items runs))) }
    ensures within { IfOk result (λ runs. length (spelled (S.items runs)) ≤ LETTER_LIMIT) }
    ensures refused { IfErr result (λ e. ((e ≡ ScriptFault.OutOfMemory) × (S.room store < run_count text.now)) ⊎
        (schedule_of text.now ≡ Err e)) }
{
    match first_stray(text) {
        Some(place) => Err(ScriptFault::BadSchedule(place as u64)),
        None => runs(store, text),
    }
}

// The place of the first byte that is not an answer.
fn first_no_answer(text: &[u8]) -> Option<usize>
    ensures { result ≡ position is_no_answer text.now }
{
    text.iter().position(|b| !(*b == b'0' || *b == b'1'))
}

// The answers of a text of `0` and `1`, in an empty store.
fn answers<S: Store<bool>>(store: S, text: &[u8]) -> Result<S, ScriptFault>
    requires empty { S.items store ≡ [] }
    ensures read { IfOk result (λ v. S.items v ≡ map (λ b. b == 49) text.now) }
    ensures refused { IfErr result (λ e. (e ≡ ScriptFault.OutOfMemory) × (S.room store < length text.now)) }
{
    let mut answers = store;
    for b in text {
        push(&mut answers, *b == b'1')?;
    }
    Ok(answers)
}

// The oracle's answers, in an empty store.
#[tactic(auto, unfolding(crate::specs::ScriptReading::oracle_of))]
fn read_oracle<S: Store<bool>>(store: S, text: &[u8]) -> Result<S, ScriptFault>
    requires empty { S.items store ≡ [] }
    ensures read { IfOk result (λ v. oracle_of text.now ≡ Ok (S.items v)) }
    ensures refused { IfErr result (λ e. ((e ≡ ScriptFault.OutOfMemory) × (S.room store < length text.now)) ⊎
        (oracle_of text.now ≡ Err e)) }
{
    match first_no_answer(text) {
        Some(place) => Err(ScriptFault::BadOracle(place as u64)),
        None => answers(store, text),
    }
}
