// The stages of a vote, each moved into the next.
ghost use Rattle.std.specs.Prelude.{◌≡◌, ◌<◌, ◌≤◌, true};

// The heads enrolled so far: numbers 0 to n - 1.
#[derive(Drop)]
pub struct Roll {
    pub(crate) n: usize,
    ghost few: { n ≤ 64 },
}

// A begun vote of n heads, of which that many rounds are heard.
#[derive(Drop)]
pub struct Vote<V> {
    pub(crate) n: usize,
    pub(crate) heard: u32,
    pub(crate) method: V,
    ghost few: { n ≤ 64 },
    ghost rounds: { heard ≤ 10000 },
}

// An open round with its senders; it may be let go only once a hearing or a withdrawal has spent it.
pub struct OpenRound<V: Drop> {
    pub(crate) n: usize,
    pub(crate) heard: u32,
    pub(crate) method: V,
    pub(crate) senders: u64,
    // Kept: a rule of the project: an open round is plain numbers, dropped only once this says that it is spent.
    pub(crate) spent: bool,
    ghost few: { n ≤ 64 },
    ghost rounds: { heard ≤ 10000 },
}

impl<V: Drop> Drop for OpenRound<V> {
    fn drop(self)
        requires { self.spent ≡ true }
    {
        let OpenRound {
            n: _,
            heard: _,
            method: _,
            senders: _,
            spent: _,
        } = self;
    }
}

// The figures of a heard round: how many heads sent, were alarmed, have decided and run after it.
#[derive(Clone, Copy, Debug, PartialEq, Eq)]
pub struct Figures {
    pub round: u32,
    pub senders: u32,
    pub alarms: u32,
    pub decided: u32,
    pub running: u32,
}

// A round that was heard: the vote goes on, and the round's figures.
#[derive(Drop)]
pub struct HeardRound<V> {
    pub vote: Vote<V>,
    pub figures: Figures,
}

// A closed vote, with the ballot of its lowest decided head.
#[derive(Drop)]
pub struct Closed<B> {
    pub(crate) ballot: Option<B>,
}

// How a head stands, as a question is answered.
#[derive(Clone, Copy)]
pub enum Standing<B> {
    Running,
    Stopped,
    Decided(B),
    NoSuchHead,
}
