// What playing a vote file may refuse.
use votes::faults::VoteFault;

// The slices that a call was given are too short.
pub use sinks::front::NoRoom;

// A fault of one record; the comment has the number of the rule.
#[derive(Clone, Copy, Debug, PartialEq, Eq)]
pub enum RecordFault {
    // the vote layer's fault
    Vote(VoteFault),
    // 20: the file ends inside the record, or is empty
    Ends,
    // 21: the record's mark is wrong
    Mark,
    // 22: the vote, the kind or the number of heads is out of range
    Header,
}

// A fault of a vote file, with the byte where its record starts.
#[derive(Clone, Copy, Debug, PartialEq, Eq)]
pub struct FileFault {
    pub byte: usize,
    pub fault: RecordFault,
}
