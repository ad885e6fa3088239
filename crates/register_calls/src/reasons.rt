//! Why a history does not have a class.

/// A read that had ended, as a reason reports it: in every order of the reads it is of the write reported here, which wrote what the read
/// returned, or of a later one.
#[derive(Clone, Copy, PartialEq, Eq, Debug)]
pub struct EarlierRead {
    /// Its reader.
    pub reader: usize,
    /// The place of the event with which it ended, counted from 0.
    pub ended: usize,
    /// What it returned.
    pub value: u64,
    /// The place of the event with which the write began.
    pub written: usize,
}

/// Why a history lacks a class with the end of a read: what was read, and what contradicts it.
///
/// `R` is a list of [`EarlierRead`]s.
#[derive(Clone, Copy, PartialEq, Eq, Debug)]
pub enum MissReason<R> {
    /// The number that was read is not a value of the register.
    NoValue,
    /// No write overlapped the read, and the register held this other value, since the event at this place, or from the start.
    Held { value: u64, since: Option<usize> },
    /// None of the writes that the read may be of wrote the value.
    NotWritten,
    /// Each write of the value that the read may be of comes before the one that an earlier read is of, the first of these reads.
    /// Each of the others shows why the one before it is of no earlier write of its value.
    Inverted(R),
}
