// What making a ballot may refuse.
#[derive(Clone, Copy, Debug, PartialEq, Eq)]
pub enum BallotFault {
    // a value beyond the range of its kind
    BeyondRange,
}
