#![tactic(auto)]
// A vote from the roll to its close.
pub mod faults;
pub mod refusals;
pub mod stages;
mod tables;

pub use checks::heard_of;
pub use tables::{lowest_idle, senders_are_counted};

mod checks;
mod close;
mod enroll;
mod enrolled;
mod hear;
mod leaders;
mod listening;
mod open;
mod round;
mod steps;
