// What playing a vote file tells.
use crate::faults::FileFault;
use votes::stages::Figures;

// How a head stands at the end, with the code of the ballot that it decided.
#[derive(Clone, Copy, Debug, PartialEq, Eq)]
pub enum Outcome {
    Running,
    Stopped,
    Decided(u16),
}

// The rounds heard, and then the heads, or the fault that ended the playing.
#[derive(Clone, Copy, Drop)]
pub struct Told<R, H> {
    pub rounds: R,
    pub ending: Result<H, FileFault>,
}

// The figures of the rounds, and the outcomes of the heads.
pub type Listing = Told<Vec<Figures>, Vec<Outcome>>;

// How many rounds and how many heads there are. Their figures and outcomes stand at the front of the caller's slices.
pub type Summary = Told<usize, usize>;
