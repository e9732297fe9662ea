#![tactic(auto)]
// Collision detectors: when a head is alarmed.
pub mod counting;
pub mod interference;
pub mod recorded;
pub mod squelch;
