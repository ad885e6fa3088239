//! Five rings that are nearly right, to be played by a script: each breaks one rule of the ring, and the audits have to
//! find the consequences. No part of the ring's law is guaranteed here.
#![tactic(auto)]

mod misses;
mod plays;
mod putting;
mod rows;
mod sides;
mod taking;

pub use misses::NearMiss;
pub use plays::{NearCall, NearFault, NearPlay, play_near, play_near_first};
