#![tactic(auto)]
// Channels: which of the senders a head hears.
pub mod capture;
pub mod clear;
pub mod dead;
pub mod recorded;
