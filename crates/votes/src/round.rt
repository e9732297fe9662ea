// A round as it is heard, and its report.

// By which rules a round is heard, its number, and who sends in it.
#[derive(Clone, Copy)]
pub(crate) struct Round<V> {
    pub(crate) method: V,
    pub(crate) number: u32,
    pub(crate) senders: u64,
}

// The report of a round: a hear word for each head, the heads alarmed and the heads that stop.
#[derive(Clone, Copy)]
pub(crate) struct Report<'a> {
    pub(crate) words: &'a [u64],
    pub(crate) alarms: u64,
    pub(crate) stops: u64,
}

// What a report says of one head: the word that it heard and its alarm; and whether it runs.
#[derive(Clone, Copy)]
pub(crate) struct Reception {
    pub(crate) head: usize,
    pub(crate) runs: bool,
    pub(crate) word: u64,
    pub(crate) alarm: bool,
}
