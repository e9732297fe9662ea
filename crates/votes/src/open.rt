// Opening a round, and withdrawing it.
ghost use Rattle.std.specs.Prelude.{◌≡◌, ◌+◌};
ghost use Rattle.votes.specs.Rounds.{senders};
ghost use Rattle.votes.specs.Calls.{open_answer, open_breach, opened, Answers, begun_as, withdrawn};

use crate::enrolled::Enrolled;
use crate::faults::{Refused, VoteFault};
use crate::stages::{OpenRound, Vote};
use crate::tables::lowest_idle;
use ballots::Ballot;
use heads::head::{Head, State};
use heads::method::Method;

impl<V: Drop> Vote<V> {
    // Who sends in the next round, or the first rule that opening it breaks.
    fn next_senders<B: Ballot>(&self, table: &[Head<B>], turns: u64) -> Result<u64, VoteFault>
    where
        V: Method<B>,
        ensures { Answers result (open_breach self.now.n (self.now.heard + 1) table.now turns) (senders V.Method.scheme (self.now.heard + 1) table.now self.now.n turns) }
    {
        let heads = Enrolled::of(table, self.n)?;
        let round = self.heard + 1;
        if round > 10000 {
            return Err(VoteFault::RoundsSpent { round });
        }
        let running = heads.in_state(State::Running);
        if sets::next(running, 0).is_none() {
            return Err(VoteFault::NoneRuns { round });
        }
        if let Some(head) = lowest_idle(turns, running) {
            return Err(VoteFault::IdleTurn { round, head });
        }
        Ok(heads.senders(self.method, round, turns))
    }

    // The next round, with turns for a set of heads; it fixes who sends.
    pub fn open<B: Ballot>(
        self,
        table: &[Head<B>],
        turns: u64,
    ) -> Result<OpenRound<V>, Refused<Vote<V>>>
    where
        V: Method<B>,
        ensures { open_answer result ≡ opened V.Method.scheme self table.now turns }
    {
        match self.next_senders(table, turns) {
            Ok(senders) => Ok(OpenRound {
                n: self.n,
                heard: self.heard,
                method: self.method,
                senders,
                spent: false,
            }),
            Err(fault) => Err(Refused { back: self, fault }),
        }
    }

    // How many heads are enrolled.
    pub fn heads(&self) -> usize
        ensures { result ≡ self.now.n }
    {
        self.n
    }

    // How many rounds are heard.
    pub fn rounds(&self) -> u32
        ensures { result ≡ self.now.heard }
    {
        self.heard
    }
}

impl<V: Drop + Copy> OpenRound<V> {
    // The vote as it was before the round was opened.
    pub fn withdraw(mut self) -> Vote<V>
        ensures { begun_as result ≡ withdrawn self }
    {
        self.spent = true;
        Vote {
            n: self.n,
            heard: self.heard,
            method: self.method,
        }
    }

    // The heads that send in this round.
    pub fn senders(&self) -> u64
        ensures { result ≡ self.now.senders }
    {
        self.senders
    }
}
