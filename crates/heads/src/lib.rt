#![tactic(auto)]
// One head: its record, what it says in a round, and what it keeps of what it hears.
pub mod alarms;
pub mod ballots_heard;
pub mod bitwise;
pub mod fitted;
pub mod head;
pub mod method;
pub mod short;
pub mod split;
