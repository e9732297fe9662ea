// Closing a vote, and asking how a head stands.
ghost use Rattle.std.specs.Prelude.{◌≡◌};
ghost use Rattle.votes.specs.Calls.{Answers, close_breach, decided_in, close_answer, closed, asked, running_in};

use crate::enrolled::Enrolled;
use crate::faults::{Refused, VoteFault};
use crate::stages::{Closed, Standing, Vote};
use heads::head::{Head, State};

impl<V: Drop> Vote<V> {
    // The ballot of the lowest head that has decided, if no head runs.
    fn outcome<B: Copy>(&self, table: &[Head<B>]) -> Result<Option<B>, VoteFault>
        ensures { Answers result (close_breach self.now.n table.now) (decided_in self.now.n table.now) }
    {
        let heads = Enrolled::of(table, self.n)?;
        if let Some(head) = sets::next(heads.in_state(State::Running), 0) {
            return Err(VoteFault::StillRuns { head });
        }
        Ok(heads.lowest_decided())
    }

    // The closed vote, once no head runs.
    pub fn close<B: Copy>(self, table: &[Head<B>]) -> Result<Closed<B>, Refused<Vote<V>>>
        ensures { close_answer result ≡ closed self table.now }
    {
        match self.outcome(table) {
            Ok(ballot) => Ok(Closed { ballot }),
            Err(fault) => Err(Refused { back: self, fault }),
        }
    }

    // The heads that run, as a set.
    pub fn running<B: Copy>(&self, table: &[Head<B>]) -> Result<u64, VoteFault>
        ensures { result ≡ running_in self.now.n table.now }
    {
        Ok(Enrolled::of(table, self.n)?.in_state(State::Running))
    }

    // How a head stands; a number from the roll's length on names none.
    pub fn state<B: Copy>(&self, table: &[Head<B>], head: usize) -> Result<Standing<B>, VoteFault>
        ensures { result ≡ asked self.now.n table.now head }
    {
        Ok(Enrolled::of(table, self.n)?.standing(head))
    }
}

impl<B: Copy> Closed<B> {
    // The ballot of the lowest head that had decided, or none.
    pub fn ballot(&self) -> Option<B>
        ensures { result ≡ self.now.ballot }
    {
        self.ballot
    }
}
