//! Linearization points: histories of calls together with the moments at which their operations take effect.
#![tactic(auto)]

mod points;
mod steps;

pub use points::LinearizationPoints;
pub use steps::Operation;
