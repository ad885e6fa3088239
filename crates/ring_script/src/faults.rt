//! Why bytes are not a script.
ghost use Rattle.std.specs.Prelude.{◌≡◌, Some};
ghost use Rattle.ring_script.specs.Fields.{name_of};
ghost use Rattle.ring_script.specs.Faults.{script_fault_number};

use bits_core::ShapeFault;
use std::alloc::{AllocError, AllocFailed};
use std::error::Error;
use std::fmt;

/// A field of a script. It is printed as its name.
///
/// For example, it is printed as `schedule`.
#[derive(Clone, Copy, PartialEq, Eq, Debug)]
pub enum Field {
    /// `capacity`: how many cells the ring has, a whole number.
    Capacity,
    /// `modulus`: the modulus of the ring's two counts, a whole number.
    Modulus,
    /// `width`: how many binary digits an item has, a whole number.
    Width,
    /// `items`: the items to put, in order, an array of whole numbers.
    Items,
    /// `takes`: how many items the consumer asks for, a whole number.
    Takes,
    /// `close`: whether the producer closes after the last item, true or false.
    Close,
    /// `schedule`: letters `P` and `C`, each with or without a count, a text.
    Schedule,
    /// `oracle`: the answers of overlapped reads, a text of `0` and `1`.
    Oracle,
    /// `batch`: how many items one count write of the producer may count at most, a whole number; it may be left out.
    Batch,
    /// `take_batch`: how many items one count write of the consumer may count at most, a whole number; it may be left out.
    TakeBatch,
}

impl Field {
    /// The field's name in a script: the words of the variant in lower case, with `_` between them.
    pub fn name(&self) -> &'static str
        ensures { result.now ≡ name_of self.now }
    {
        match self {
            Field::Capacity => "capacity",
            Field::Modulus => "modulus",
            Field::Width => "width",
            Field::Items => "items",
            Field::Takes => "takes",
            Field::Close => "close",
            Field::Schedule => "schedule",
            Field::Oracle => "oracle",
            Field::Batch => "batch",
            Field::TakeBatch => "take_batch",
        }
    }
}

impl fmt::Display for Field {
    ghost output = { λ field. Some (name_of field) };

    fn fmt<W: fmt::Write>(&self, f: &mut fmt::Formatter<W>) -> fmt::Result {
        f.write_str(self.name())
    }
}

/// Why bytes are not a script.
///
/// For example, it is printed with the byte that cannot come there in the schedule. In use: `uses::plays::takes_of`.
#[derive(Clone, Copy, PartialEq, Eq, Debug)]
pub enum ScriptFault {
    /// The bytes are not UTF-8, or not the text of one JSON value, or arrays and objects are nested
    /// more than 127 deep.
    NotJson,
    /// The JSON value is not an object.
    NotObject,
    /// The object has a name that is not a field of a script.
    UnknownField,
    /// The object lacks this field; never reported for `Batch` and `TakeBatch`.
    MissingField(Field),
    /// The value of this field is not of the field's kind. For `Items`, the value may also be an
    /// array in which something is not a whole number.
    WrongKind(Field),
    /// Capacity, modulus, width and the two batches make no shape.
    Shape(ShapeFault),
    /// There are more items than a script may have.
    TooManyItems,
    /// The item at this place, counted from 0, does not fit the width.
    ItemTooWide(u64),
    /// The byte of the schedule at this place, counted from 0, cannot come there.
    BadSchedule(u64),
    /// The schedule represents more letters than a script may have.
    ScheduleTooLong,
    /// The byte of the oracle at this place, counted from 0, is neither `0` nor `1`.
    BadOracle(u64),
    /// Memory ran out.
    OutOfMemory,
}

impl fmt::Display for ScriptFault {
    ghost use Rattle.ring_script.specs.Faults.{script_fault_words};

    ghost output = { λ fault. Some (script_fault_words fault) };

    /// The words of the fault.
    fn fmt<W: fmt::Write>(&self, f: &mut fmt::Formatter<W>) -> fmt::Result {
        match self {
            ScriptFault::NotJson => f.write_str("script is not JSON"),
            ScriptFault::NotObject => f.write_str("script is not an object"),
            ScriptFault::UnknownField => f.write_str("script has an unknown field"),
            ScriptFault::MissingField(field) => write!(f, "field {field} is missing"),
            ScriptFault::WrongKind(field) => write!(f, "field {field} has the wrong kind"),
            ScriptFault::Shape(fault) => write!(f, "{fault}"),
            ScriptFault::TooManyItems => f.write_str("script has too many items"),
            ScriptFault::ItemTooWide(place) => write!(f, "item {place} does not fit the width"),
            ScriptFault::BadSchedule(place) => write!(f, "schedule is wrong at byte {place}"),
            ScriptFault::ScheduleTooLong => f.write_str("schedule is too long"),
            ScriptFault::BadOracle(place) => write!(f, "oracle is wrong at byte {place}"),
            ScriptFault::OutOfMemory => f.write_str("out of memory"),
        }
    }
}

impl Error for ScriptFault {}

impl ScriptFault {
    /// The number of the fault: 1 `NotJson`, 2 `NotObject`, 3 `UnknownField`, 4 `MissingField`,
    /// 5 `WrongKind`, 6 `Shape`, 7 `TooManyItems`, 8 `ItemTooWide`, 9 `BadSchedule`,
    /// 10 `ScheduleTooLong`, 11 `BadOracle`, 12 `OutOfMemory`.
    pub fn number(&self) -> u8
        ensures { result ≡ script_fault_number self.now }
    {
        match self {
            ScriptFault::NotJson => 1,
            ScriptFault::NotObject => 2,
            ScriptFault::UnknownField => 3,
            ScriptFault::MissingField(_) => 4,
            ScriptFault::WrongKind(_) => 5,
            ScriptFault::Shape(_) => 6,
            ScriptFault::TooManyItems => 7,
            ScriptFault::ItemTooWide(_) => 8,
            ScriptFault::BadSchedule(_) => 9,
            ScriptFault::ScheduleTooLong => 10,
            ScriptFault::BadOracle(_) => 11,
            ScriptFault::OutOfMemory => 12,
        }
    }
}

impl From<AllocError> for ScriptFault {
    ghost use Rattle.ring_script.specs.declared.faults.ScriptFault.TheVariants.{OutOfMemory};

    ghost from_gives = { λ _ e. e ≡ OutOfMemory };

    fn from(_error: AllocError) -> ScriptFault {
        ScriptFault::OutOfMemory
    }
}

impl<T: Drop> From<AllocFailed<T>> for ScriptFault {
    ghost use Rattle.ring_script.specs.declared.faults.ScriptFault.TheVariants.{OutOfMemory};

    ghost from_gives = { λ _ e. e ≡ OutOfMemory };

    fn from(_error: AllocFailed<T>) -> ScriptFault {
        ScriptFault::OutOfMemory
    }
}
