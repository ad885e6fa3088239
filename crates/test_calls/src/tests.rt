//! Tests of `queue_calls`, `register_calls` and the texts of their recordings.

mod beginnings;
mod cases;
mod growths;
mod histories;
mod lines_of_registers;
mod reasons_of_registers;
mod recordings;
mod registers;
mod slots;
mod texts_of_registers;
