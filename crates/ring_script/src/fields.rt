//! The fields of a script: their names, their values, and the kind of each value.
ghost use Rattle.std.specs.Prelude.{◌≡◌, ◌⊎◌, Ok, Err, Some, None, IfOk, IfErr, option_and_then, option_map, string_bytes};
ghost use Rattle.std.specs.List.{list_all};
ghost use Rattle.std.specs.Map.{keys_of};
ghost use Rattle.serde_json.specs.Find.{as_array, as_bool, as_object, as_str};
ghost use Rattle.serde_json.specs.View.{view, items_view, members_view};
ghost use Rattle.ring_script.specs.Results.{result_map};
ghost use Rattle.ring_script.specs.FieldReading.{batch_in, field_of, has_known_names, is_name, names_in, of_kind, typed_of, field_values, whole_of, wholes_of};
ghost use Rattle.ring_script.specs.Views.{typed_view, values_view};

use crate::faults::{Field, ScriptFault};
use serde_json::{Map, Value};
use std::alloc::Allocator;

/// The JSON values of a script's fields.
#[derive(Clone, Copy)]
pub(crate) struct Values<'v> {
    pub capacity: &'v Value,
    pub modulus: &'v Value,
    pub width: &'v Value,
    pub items: &'v Value,
    pub takes: &'v Value,
    pub close: &'v Value,
    pub schedule: &'v Value,
    pub oracle: &'v Value,
    pub batch: Option<&'v Value>,
    pub take_batch: Option<&'v Value>,
}

/// The numbers, lists and texts that the fields of a script hold.
#[derive(Drop)]
pub(crate) struct Typed<'v, A: Allocator> {
    pub capacity: u64,
    pub modulus: u64,
    pub width: u64,
    pub items: Vec<u64, A>,
    pub takes: u64,
    pub close: bool,
    pub schedule: &'v str,
    pub oracle: &'v str,
    pub batch: u64,
    pub take_batch: u64,
}

// Whether the text is the name of a field.
#[tactic(auto, unfolding(crate::specs::FieldReading::is_name))]
fn is_a_name(name: &str) -> bool
    ensures { result ≡ is_name name.now }
{
    matches!(
        name,
        "capacity"
            | "modulus"
            | "width"
            | "items"
            | "takes"
            | "close"
            | "schedule"
            | "oracle"
            | "batch"
            | "take_batch"
    )
}

// Whether each key is the name of a field.
fn are_keys_names(members: &Map<String, Value>) -> bool
    ensures { result ≡ list_all (λ key. is_name (string_bytes key)) (keys_of members.now.entries) }
{
    members.keys().all(|key| is_a_name(key.as_str()))
}

// The same for the members.
fn are_names(members: &Map<String, Value>) -> bool
    ensures { result ≡ has_known_names (members_view members.now.entries) }
{
    are_keys_names(members)
}

/// Whether the value is an object all of whose names are those of fields.
pub fn check_names(value: &Value) -> Result<(), ScriptFault>
    ensures { result ≡ names_in (as_object (view value.now)) }
{
    match value.as_object() {
        Some(members) => {
            if are_names(members) {
                Ok(())
            } else {
                Err(ScriptFault::UnknownField)
            }
        }
        None => Err(ScriptFault::NotObject),
    }
}

// The value of a field.
fn field<'v>(value: &'v Value, field: Field) -> Result<&'v Value, ScriptFault>
    ensures { result_map (λ v. view v.now) result ≡ field_of field (view value.now) }
{
    match value.get(field.name()) {
        Some(value) => Ok(value),
        None => Err(ScriptFault::MissingField(field)),
    }
}

/// The values of all fields, or the first field that is missing; `batch` and `take_batch` may be.
#[tactic(auto, unfolding(crate::specs::FieldReading::field_values))]
pub fn find_values<'v>(value: &'v Value) -> Result<Values<'v>, ScriptFault>
    ensures { result_map values_view result ≡ field_values (view value.now) }
{
    Ok(Values {
        capacity: field(value, Field::Capacity)?,
        modulus: field(value, Field::Modulus)?,
        width: field(value, Field::Width)?,
        items: field(value, Field::Items)?,
        takes: field(value, Field::Takes)?,
        close: field(value, Field::Close)?,
        schedule: field(value, Field::Schedule)?,
        oracle: field(value, Field::Oracle)?,
        batch: value.get(Field::Batch.name()),
        take_batch: value.get(Field::TakeBatch.name()),
    })
}

// The whole number that the field's value is.
fn whole(value: &Value, field: Field) -> Result<u64, ScriptFault>
    ensures { result ≡ of_kind field (whole_of (view value.now)) }
{
    match value.as_u64() {
        Some(number) => Ok(number),
        None => Err(ScriptFault::WrongKind(field)),
    }
}

// The batch that the field holds, 1 if it is left out.
fn batch(value: Option<&Value>, field: Field) -> Result<u64, ScriptFault>
    ensures { result ≡ batch_in field (option_map (λ v. view v.now) value.entry) }
{
    match value {
        Some(value) => whole(value, field),
        None => Ok(1),
    }
}

// Whether the field's value is true or false.
fn truth(value: &Value, field: Field) -> Result<bool, ScriptFault>
    ensures { result ≡ of_kind field (as_bool (view value.now)) }
{
    match value.as_bool() {
        Some(truth) => Ok(truth),
        None => Err(ScriptFault::WrongKind(field)),
    }
}

// The text that the field's value is.
fn text<'v>(value: &'v Value, field: Field) -> Result<&'v str, ScriptFault>
    ensures { result_map (λ t. t.now) result ≡ of_kind field (as_str (view value.now)) }
{
    match value.as_str() {
        Some(text) => Ok(text),
        None => Err(ScriptFault::WrongKind(field)),
    }
}

// The values of an array as whole numbers.
fn wholes<A: Allocator + Copy>(alloc: A, list: &[Value]) -> Result<Vec<u64, A>, ScriptFault>
    ensures read { IfOk result (λ v. wholes_of (items_view list.now) ≡ Some v.items) }
    ensures refused { IfErr result (λ e. (e ≡ ScriptFault.OutOfMemory)
        ⊎ ((e ≡ ScriptFault.WrongKind Field.Items) × (wholes_of (items_view list.now) ≡ None))) }
{
    let mut items = Vec::new(alloc);
    for value in list {
        match value.as_u64() {
            Some(number) => items.push(number)?,
            None => return Err(ScriptFault::WrongKind(Field::Items)),
        }
    }
    Ok(items)
}

// The items.
fn items<A: Allocator + Copy>(alloc: A, value: &Value) -> Result<Vec<u64, A>, ScriptFault>
    ensures read { IfOk result (λ v. of_kind Field.Items (option_and_then wholes_of (as_array (view value.now))) ≡ Ok
        v.items) }
    ensures refused { IfErr result (λ e. (e ≡ ScriptFault.OutOfMemory)
        ⊎ (of_kind Field.Items (option_and_then wholes_of (as_array (view value.now))) ≡ Err e)) }
{
    match value.as_array() {
        Some(list) => wholes(alloc, list),
        None => Err(ScriptFault::WrongKind(Field::Items)),
    }
}

/// What the fields hold, or the first field whose value is of the wrong kind.
#[tactic(auto, unfolding(crate::specs::FieldReading::typed_of))]
pub fn check_kinds<'v, A: Allocator + Copy>(
    alloc: A,
    values: &Values<'v>,
) -> Result<Typed<'v, A>, ScriptFault>
    ensures read { IfOk result (λ typed. typed_of (values_view values.now) ≡ Ok (typed_view typed)) }
    ensures refused { IfErr result (λ e. (e ≡ ScriptFault.OutOfMemory) ⊎ (typed_of (values_view values.now) ≡ Err e)) }
{
    Ok(Typed {
        capacity: whole(values.capacity, Field::Capacity)?,
        modulus: whole(values.modulus, Field::Modulus)?,
        width: whole(values.width, Field::Width)?,
        items: items(alloc, values.items)?,
        takes: whole(values.takes, Field::Takes)?,
        close: truth(values.close, Field::Close)?,
        schedule: text(values.schedule, Field::Schedule)?,
        oracle: text(values.oracle, Field::Oracle)?,
        batch: batch(values.batch, Field::Batch)?,
        take_batch: batch(values.take_batch, Field::TakeBatch)?,
    })
}
