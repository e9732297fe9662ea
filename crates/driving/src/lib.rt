#![tactic(auto)]
// A vote driven over a channel, a collision detector and a contention manager; and the call that begins a vote, whose
// contract has what is promised of every chain of calls on it.
mod beginning;
mod driver;
mod report;

pub use beginning::begin;
pub use driver::drive;
