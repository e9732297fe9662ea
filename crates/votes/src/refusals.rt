// A fault by its number and the values that it names, and the way up from the ballot layer.
ghost use Rattle.std.specs.Prelude.{◌≡◌};
ghost use Rattle.ballots.specs.Faults.{numbered as rule, in_round, at_head};
ghost use Rattle.ballots.specs.Kinds.{from_code};
ghost use Rattle.votes.specs.Faults.{vote_breach, refusal_breach, ballot_from};
ghost use Rattle.votes.specs.declared.faults.VoteFault.TheVariants.{Ballot};

use crate::faults::{Refusal, VoteFault};
use ballots::Coded;
use ballots::faults::BallotFault;

impl From<BallotFault> for VoteFault {
    ghost from_gives = { λ e r. r ≡ Ballot e };

    fn from(e: BallotFault) -> VoteFault {
        VoteFault::Ballot(e)
    }
}

// The ballot of a code, for a vote.
pub fn ballot_of<B: Coded>(code: u16) -> Result<B, VoteFault>
    ensures { result ≡ ballot_from (from_code B.encoded B.decoded code) }
{
    Ok(ballots::decode(code)?)
}

impl Refusal {
    // The refusal by a rule that names no round and no head.
    pub fn rule(number: u32) -> Refusal
        ensures { refusal_breach result ≡ rule number }
    {
        Refusal {
            number,
            round: None,
            head: None,
            other: None,
        }
    }

    // The refusal by a rule in a round.
    fn in_round(number: u32, round: u32) -> Refusal
        ensures { refusal_breach result ≡ in_round number round }
    {
        Refusal {
            round: Some(round as usize),
            ..Refusal::rule(number)
        }
    }

    // The refusal by a rule in a round, at a head.
    fn at_head(number: u32, round: u32, head: usize) -> Refusal
        ensures { refusal_breach result ≡ at_head number round head }
    {
        Refusal {
            head: Some(head),
            ..Refusal::in_round(number, round)
        }
    }
}

impl VoteFault {
    // The number of the rule, and the values that it names.
    // Kept: a `From` would say the same under no name, and in no fewer lines.
    pub fn refusal(self) -> Refusal
        ensures { refusal_breach result ≡ vote_breach self }
    {
        match self {
            VoteFault::Ballot(BallotFault::BeyondRange) => Refusal::rule(1),
            VoteFault::RollFull => Refusal::rule(2),
            VoteFault::NoHeads => Refusal::rule(3),
            VoteFault::ShortTable => Refusal::rule(4),
            VoteFault::RoundsSpent { round } => Refusal::in_round(5, round),
            VoteFault::NoneRuns { round } => Refusal::in_round(6, round),
            VoteFault::IdleTurn { round, head } => Refusal::at_head(7, round, head),
            VoteFault::WordCount { round } => Refusal::in_round(8, round),
            VoteFault::IdleStop { round, head } => Refusal::at_head(9, round, head),
            VoteFault::IdleNoise { round, head } => Refusal::at_head(10, round, head),
            VoteFault::NotSender { round, head, other } => Refusal {
                other: Some(other),
                ..Refusal::at_head(11, round, head)
            },
            VoteFault::OwnUnheard { round, head } => Refusal::at_head(12, round, head),
            VoteFault::AlarmMissing { round, head } => Refusal::at_head(13, round, head),
            VoteFault::FalseAlarm { round, head } => Refusal::at_head(14, round, head),
            VoteFault::HearingSpent { round } => Refusal::in_round(15, round),
            VoteFault::StillRuns { head } => Refusal {
                head: Some(head),
                ..Refusal::rule(16)
            },
        }
    }
}
