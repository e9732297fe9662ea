// Hearing an open round.
ghost use Rattle.std.specs.Prelude.{◌≡◌, ◌+◌, ◌≤◌, length, OnOk};
ghost use Rattle.votes.specs.Reports.{reported};
ghost use Rattle.votes.specs.Calls.{breach_in, hear_breach, figures_of, hear_answer, heard, heard_table};

use crate::enrolled::Enrolled;
use crate::faults::{Refused, VoteFault};
use crate::round::{Report, Round};
use crate::stages::{Figures, HeardRound, OpenRound, Vote};
use crate::tables::lowest_idle;
use ballots::Ballot;
use heads::head::{Head, State};
use heads::method::Method;

impl<'a, B: Copy> Enrolled<'a, B> {
    // The figures of a round, from the records after it.
    fn figures(&self, round: u32, senders: u64, alarms: u64) -> Figures
        ensures { result ≡ figures_of self.now.n round senders alarms self.now.table.now }
    {
        Figures {
            round,
            senders: sets::size(senders),
            alarms: sets::size(alarms),
            decided: sets::size(self.in_state(State::Decided)),
            running: sets::size(self.in_state(State::Running)),
        }
    }
}

impl<V: Drop> OpenRound<V> {
    // The round by itself.
    fn round(&self) -> Round<V>
    where
        V: Copy,
        ensures { result ≡ record { method = self.now.method; number = self.now.heard + 1; senders = self.now.senders } }
    {
        Round {
            method: self.method,
            number: self.heard + 1,
            senders: self.senders,
        }
    }

    // Checks a report of the round, up to the first rule that hearing it breaks.
    #[tactic(auto, unfolding(crate::specs::Calls::hear_breach))]
    fn check<B: Copy>(&self, table: &[Head<B>], report: Report<'_>) -> Result<(), VoteFault>
    where
        V: Method<B>,
        ensures accepted { OnOk result ((self.now.heard + 1 ≤ 10000) × (self.now.n ≤ length table.now) × (length report.entry.words.now ≡ self.now.n)) }
        ensures value { breach_in result ≡ hear_breach V.Method.scheme self.now.n (self.now.heard + 1) self.now.senders table.now (reported report.entry) }
    {
        let heads = Enrolled::of(table, self.n)?;
        let round = self.heard + 1;
        if round > 10000 {
            return Err(VoteFault::HearingSpent { round });
        }
        if report.words.len() != self.n {
            return Err(VoteFault::WordCount { round });
        }
        let running = heads.in_state(State::Running);
        if let Some(head) = lowest_idle(report.stops, running) {
            return Err(VoteFault::IdleStop { round, head });
        }
        self.round().check_report(running, report)
    }

    // The report of the round: a hear word for each head, the heads alarmed and the heads that stop.
    pub fn hear<B: Ballot>(
        mut self,
        table: &mut [Head<B>],
        words: &[u64],
        alarms: u64,
        stops: u64,
    ) -> Result<HeardRound<V>, Refused<OpenRound<V>>>
    where
        V: Method<B>,
        ensures answer { hear_answer result ≡ heard B.Ballot.earlier V.Method.scheme self table.old (record { words = words.now; alarms = alarms; stops = stops }) }
        ensures table { table.new ≡ heard_table B.Ballot.earlier V.Method.scheme self table.old (record { words = words.now; alarms = alarms; stops = stops }) }
    {
        let report = Report {
            words,
            alarms,
            stops,
        };
        if let Err(fault) = self.check(table, report) {
            return Err(Refused { back: self, fault });
        }
        let round = self.round();
        round.advance(table, report);
        self.spent = true;
        let heads = Enrolled { table, n: self.n };
        let figures = heads.figures(round.number, round.senders, alarms);
        Ok(HeardRound {
            vote: Vote {
                n: self.n,
                heard: round.number,
                method: self.method,
            },
            figures,
        })
    }
}
