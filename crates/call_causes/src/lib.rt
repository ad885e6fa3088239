//! What contradicts a line of recorded calls, as text: causes, and the items that they name.
#![tactic(auto)]

mod causes;
mod entries;
mod words;

pub use causes::{Cause, Next, Said};
pub use entries::{Offered, TAKEN_LIMIT, Taken};
pub use words::{CAUSE_WORDS, write_cause};
