// What a vote's calls may refuse.
use ballots::faults::BallotFault;

// Why a call was refused; the comment has the number of the rule.
#[derive(Clone, Copy, Debug, PartialEq, Eq)]
pub enum VoteFault {
    // 1: the ballot layer's fault
    Ballot(BallotFault),
    // 2: 64 heads are enrolled, or the table is full
    RollFull,
    // 3: no head is enrolled
    NoHeads,
    // 4: the table is shorter than the roll
    ShortTable,
    // 5: 10,000 rounds are heard
    RoundsSpent {
        round: u32,
    },
    // 6: no head runs
    NoneRuns {
        round: u32,
    },
    // 7: a turn for a head that does not run
    IdleTurn {
        round: u32,
        head: usize,
    },
    // 8: not one hear word for each head
    WordCount {
        round: u32,
    },
    // 9: a stop of a head that does not run
    IdleStop {
        round: u32,
        head: usize,
    },
    // 10: a message heard or an alarm at a head that does not run
    IdleNoise {
        round: u32,
        head: usize,
    },
    // 11: a head heard one that did not send
    NotSender {
        round: u32,
        head: usize,
        other: usize,
    },
    // 12: a sender did not hear itself
    OwnUnheard {
        round: u32,
        head: usize,
    },
    // 13: an alarm that is due is absent
    AlarmMissing {
        round: u32,
        head: usize,
    },
    // 14: a false alarm in a vote that refuses it
    FalseAlarm {
        round: u32,
        head: usize,
    },
    // 15: 10,000 rounds are heard
    HearingSpent {
        round: u32,
    },
    // 16: a head still runs
    StillRuns {
        head: usize,
    },
}

// A refused call hands back what it was given, with the fault.
pub struct Refused<T> {
    pub back: T,
    pub fault: VoteFault,
}

// A fault as its number and the values that it names.
#[derive(Clone, Copy, Debug, PartialEq, Eq)]
pub struct Refusal {
    // Kept: a number, which the listing prints; what a call refuses is the enum above.
    pub number: u32,
    pub round: Option<usize>,
    pub head: Option<usize>,
    pub other: Option<usize>,
}
