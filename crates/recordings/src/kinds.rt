// What the header of a vote file names, by the bytes that stand for it.
ghost use Rattle.std.specs.Prelude.{◌≡◌};
ghost use Rattle.recordings.specs.Kinds.{vote_in, kind_in};

use crate::faults::RecordFault;

#[derive(Clone, Copy, Debug, PartialEq, Eq)]
pub enum VoteKind {
    Short,
    Bit,
    Split,
}

impl TryFrom<u8> for VoteKind {
    type Error = RecordFault;

    ghost try_from_gives = { λ byte r. r ≡ vote_in byte };

    fn try_from(byte: u8) -> Result<VoteKind, RecordFault> {
        match byte {
            1 => Ok(VoteKind::Short),
            2 => Ok(VoteKind::Bit),
            3 => Ok(VoteKind::Split),
            _ => Err(RecordFault::Header),
        }
    }
}

#[derive(Clone, Copy, Debug, PartialEq, Eq)]
pub enum BallotKind {
    Recipe,
    Ticket,
}

impl TryFrom<u8> for BallotKind {
    type Error = RecordFault;

    ghost try_from_gives = { λ byte r. r ≡ kind_in byte };

    fn try_from(byte: u8) -> Result<BallotKind, RecordFault> {
        match byte {
            1 => Ok(BallotKind::Recipe),
            2 => Ok(BallotKind::Ticket),
            _ => Err(RecordFault::Header),
        }
    }
}
