//! What is at the position where the reading of a script stops, for somebody who has to repair it.
ghost use Rattle.std.specs.Prelude.{◌≡◌, IfSome, OnSome, Some};
ghost use Rattle.serde_json.specs.View.{view};
ghost use Rattle.ring_script.specs.Faults.{IsScriptFault};
ghost use Rattle.ring_script.specs.Stops.{HasByte, byte_in};

use crate::faults::{Field, ScriptFault};
use serde_json::{Error, Value};
use std::alloc::Global;
use std::fmt;

/// Why bytes are not JSON. It is printed as the JSON reader's text, with a line and a column.
///
/// In use: `lamport_ring play`, which prints it next to the refusal.
#[derive(Drop)]
pub struct JsonFault {
    error: Error,
}

impl fmt::Display for JsonFault {
    fn fmt<W: fmt::Write>(&self, f: &mut fmt::Formatter<W>) -> fmt::Result {
        write!(f, "{}", self.error)
    }
}

/// Why bytes are not JSON. `None` if they are JSON, or if memory ran out.
///
/// In use: `lamport_ring play`, which prints it next to the refusal.
pub fn json_fault(json: Global, bytes: &[u8]) -> Option<JsonFault>
    ensures { OnSome result (IsScriptFault bytes.now ScriptFault.NotJson) }
{
    match Value::from_slice(json, bytes) {
        Ok(_) => None,
        Err(error) => {
            if error.is_memory() {
                None
            } else {
                Some(JsonFault { error })
            }
        }
    }
}

/// The byte at a place, counted from 0, of the text that a field holds. `None` if the bytes are not a JSON object,
/// if it has no such field or no such place, if the field is not a text, or if memory ran out.
///
/// In use: `lamport_ring play`, which prints the byte that cannot come there.
pub fn byte_of_text(json: Global, bytes: &[u8], field: Field, place: u64) -> Option<u8>
    ensures { IfSome result (HasByte bytes.now field place) }
{
    let value = Value::from_slice(json, bytes).ok()?;
    byte_in(&value, field, place)
}

// The same, for the JSON value of the bytes.
fn byte_in(value: &Value, field: Field, place: u64) -> Option<u8>
    ensures { IfSome result (λ byte. byte_in field place (view value.now) ≡ Some byte) }
{
    let text = value.get(field.name())?.as_str()?;
    let place = usize::try_from(place).ok()?;
    text.as_bytes().get(place).copied()
}
