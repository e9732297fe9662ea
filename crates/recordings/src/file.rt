// A vote file whose first five bytes are sound.
ghost use Rattle.std.specs.Prelude.{◌≤◌, length};

use crate::kinds::{BallotKind, VoteKind};

// The bytes, and what the first five of them name: the vote, the kind of its ballots, and the number of its heads.
#[derive(Clone, Copy)]
pub(crate) struct File<'a> {
    pub(crate) bytes: &'a [u8],
    pub(crate) vote: VoteKind,
    pub(crate) kind: BallotKind,
    pub(crate) heads: usize,
    ghost some: { 1 ≤ heads },
    ghost few: { heads ≤ 64 },
    ghost five: { 5 ≤ length bytes.now },
}
