#![tactic(auto)]
// The three parts that a vote is driven by, as interfaces: any equipment that keeps the sentences of its meaning can be
// plugged in.
pub mod channel;
pub mod detector;
pub mod faults;
pub mod manager;
pub mod ranges;
pub mod spells;
pub mod words;
