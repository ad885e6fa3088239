//! Registers of safe bits: the machines of their writers and readers, and the laws of what their reads can return.
//!
//! A machine yields the access that is due and is fed its answer; it never touches memory itself.
#![tactic(auto)]

mod bits;
pub mod laws;
mod scans;
mod unary;
mod words;

pub use bits::BitWriter;
pub use scans::UnaryScan;
pub use unary::UnaryWriter;
pub use words::{WordReader, WordWriter};
