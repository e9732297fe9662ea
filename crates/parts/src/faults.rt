// What making a part may refuse.
#[derive(Clone, Copy, Debug, PartialEq, Eq)]
pub enum PartFault {
    // 17: a list, a position, a number of heads or a spell that does not fit
    Unfit,
}
