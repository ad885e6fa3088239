//! The lines of the text of a recorded register: its reads and writes.
#![tactic(auto)]

mod lines;

pub use lines::{LINE_LIMIT, READERS, RegisterLine, read_register_line};
