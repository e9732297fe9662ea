// The contention manager: which heads have a turn.
ghost use Rattle.std.specs.Prelude.{◌≡◌, ℕ};
ghost use Rattle.parts.specs.Managers.{Meaning, Keeps, Told};

pub trait Manager {
    ghost meaning: { Self → Meaning };

    // what becomes of it when it is told of a round, its count of senders and its alarms
    ghost tells: { Self → ℕ → ℕ → ℕ → Self → Type 0 };

    // The heads that have a turn in the round, of those that run.
    fn turns(&self, round: u32, running: u64) -> u64
        ensures { result ≡ (meaning self.now).rule round running };

    // The round from which on exactly one head has a turn, if any runs.
    fn single_round(&self) -> u32
        ensures { result ≡ (meaning self.now).single };

    // The round that it was last told of; 0 at first.
    fn last_told(&self) -> u32
        ensures { result ≡ (meaning self.now).told };

    // Tells it how many heads sent in a heard round, and which were alarmed.
    fn tell(&mut self, round: u32, c: u32, alarms: u64)
        ensures { tells self.old round c alarms self.new };

    ghost keeps: { (manager : Self) → Keeps (meaning manager) };

    ghost told: { (before : Self) (round c alarms : ℕ) (after : Self) → tells before round c alarms after → Told (meaning before) round c (meaning after) };
}
