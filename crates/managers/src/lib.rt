#![tactic(auto)]
// Contention managers: which heads have a turn.
pub mod giving;
pub mod lowest;
pub mod rotation;
mod turns;
