#![tactic(auto)]
// Recorded votes: a vote file is read and played.
mod bytes;
pub mod faults;
mod file;
mod header;
mod into;
pub mod kinds;
pub mod listing;
pub mod play;
mod refusals;
mod rounds;
pub mod slices;
