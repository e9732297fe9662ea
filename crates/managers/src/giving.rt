// Managers that remember the round last told: they give turns by it and by the running heads.
ghost use Rattle.std.specs.Prelude.{◌≡◌, ℕ, if◌then◌else◌, refl};
ghost use Rattle.parts.specs.Managers.{Keeps};
ghost use Rattle.parts.specs.Ranges.{tellable};
ghost use Rattle.managers.specs.Turns.{by_last_told};
ghost use Rattle.managers.specs.Keeping.{told_by};

use parts::manager::Manager;
use parts::ranges::{in_time, is_tellable};
use std::marker::PhantomData;

// A way of giving turns.
pub trait Giving: Copy {
    // The round from which on exactly one head has a turn, if any runs.
    const SINGLE: u32;

    ghost SINGLE: { ℕ };

    ghost gives: { ℕ → ℕ → ℕ };

    // The heads that have a turn, by the round last told and the heads that run.
    fn turns(told: u32, running: u64) -> u64
        ensures { result ≡ gives told running };

    ghost keeps: { (told : ℕ) → Keeps (by_last_told gives SINGLE told) };
}

// The round last told, and a way of giving turns.
#[derive(Clone, Copy)]
pub struct ByLastTold<G> {
    told: u32,
    giving: PhantomData<G>,
}

impl<G: Giving> ByLastTold<G> {
    pub fn new() -> ByLastTold<G>
        ensures { result ≡ record { told = 0; giving = record {} } }
    {
        ByLastTold {
            told: 0,
            giving: PhantomData,
        }
    }
}

impl<G: Giving> Manager for ByLastTold<G> {
    ghost meaning = { λ manager. by_last_told G.Giving.gives G.Giving.SINGLE manager.told };

    ghost tells = { λ before round c alarms after. after ≡ record before { told = (if tellable round c then round else before.told) } };

    ghost keeps = { λ manager. G.Giving.keeps manager.told };

    ghost told = { λ before round c alarms after e. rw e (told_by (by_last_told G.Giving.gives G.Giving.SINGLE) G.Giving.SINGLE (λ _. refl) (λ _. refl) before.told round c) };

    fn turns(&self, round: u32, running: u64) -> u64 {
        if in_time(round) {
            G::turns(self.told, running)
        } else {
            0
        }
    }

    fn single_round(&self) -> u32 {
        G::SINGLE
    }

    fn last_told(&self) -> u32 {
        self.told
    }

    fn tell(&mut self, round: u32, c: u32, _alarms: u64) {
        if is_tellable(round, c) {
            self.told = round;
        }
    }
}
