// The record of one head, and what it hears in a round.
ghost use Rattle.std.specs.Prelude.{◌≡◌};
ghost use Rattle.heads.specs.Heard.{no_ballots};
ghost use Rattle.heads.specs.Rules.{fresh, stopped, decided, moved, noisy, adopted, only_one};

// How a head stands.
#[derive(Clone, Copy, Debug, PartialEq, Eq)]
pub enum State {
    Running,
    Decided,
    Stopped,
}

// The ballots heard in a round: the least of them, and whether two of them differ.
#[derive(Clone, Copy)]
pub struct Ballots<B> {
    pub least: Option<B>,
    // Kept: every pair may stand in a caller's record; an enum of none, one and several would refuse a pair.
    pub differ: bool,
}

// The first bits of a code, as a number and how many they are.
#[derive(Clone, Copy, Debug, Default, PartialEq, Eq)]
pub struct Prefix {
    pub bits: u16,
    pub length: u8,
}

// What a head keeps from round to round.
#[derive(Clone, Copy)]
pub struct Head<B> {
    pub state: State,
    // the ballot that it was enrolled with
    pub first: B,
    // the ballot that it would decide
    pub estimate: B,
    // short and bit votes: what it heard in the last round of ballots
    pub ballots: Ballots<B>,
    // short and bit votes: up unless it objects; in a round of vetoes a head without flag sends
    pub flag: bool,
    // split votes: the code bits found so far
    pub prefix: Prefix,
    // split votes: whether there was noise in the first round of the step
    pub noise: bool,
}

// What a head hears in a round: how many messages, the ballots among them, and whether it was alarmed.
#[derive(Clone, Copy)]
pub struct Heard<B> {
    pub count: u32,
    pub ballots: Ballots<B>,
    pub alarm: bool,
}

impl<B: Copy> Ballots<B> {
    // No ballot at all.
    pub fn none() -> Ballots<B>
        ensures { result ≡ no_ballots }
    {
        Ballots {
            least: None,
            differ: false,
        }
    }

    // Whether only one ballot was heard, however often.
    pub(crate) fn is_one(self) -> bool
        ensures { result ≡ only_one self }
    {
        self.least.is_some() && !self.differ
    }
}

impl<B: Copy> Heard<B> {
    // Whether there was noise: a message heard, or an alarm.
    pub(crate) fn is_noisy(self) -> bool
        ensures { result ≡ noisy self }
    {
        self.count > 0 || self.alarm
    }

    // The estimate after a round of ballots.
    fn adopt(self, estimate: B) -> B
        ensures { result ≡ adopted self estimate }
    {
        if self.alarm {
            return estimate;
        }
        self.ballots.least.unwrap_or(estimate)
    }
}

impl<B: Copy> Head<B> {
    // A head that runs, with its first ballot as its estimate.
    pub fn new(first: B) -> Head<B>
        ensures { result ≡ fresh first }
    {
        Head {
            state: State::Running,
            first,
            estimate: first,
            ballots: Ballots::none(),
            flag: true,
            prefix: Prefix::default(),
            noise: false,
        }
    }

    // The head once it has stopped.
    pub fn stopped(self) -> Head<B>
        ensures { result ≡ stopped self }
    {
        Head {
            state: State::Stopped,
            ..self
        }
    }

    // The head once it has decided its estimate.
    pub(crate) fn decided(self) -> Head<B>
        ensures { result ≡ decided self }
    {
        Head {
            state: State::Decided,
            ..self
        }
    }

    // The head after a round of ballots.
    pub(crate) fn moved(self, flag: bool, heard: Heard<B>) -> Head<B>
        ensures { result ≡ moved flag heard self }
    {
        Head {
            estimate: heard.adopt(self.estimate),
            ballots: heard.ballots,
            flag,
            ..self
        }
    }
}
