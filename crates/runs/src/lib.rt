#![tactic(auto)]
// What holds of every chain of calls on a vote.
