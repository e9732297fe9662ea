// The manager that passes the turn on from round to round.
ghost use Rattle.managers.specs.Turns.{rotation_gives};
ghost use Rattle.managers.specs.Keeping.{rotation_keeps};

use crate::giving::{ByLastTold, Giving};
use crate::turns::{next_of, turn_of};

#[derive(Clone, Copy)]
pub struct InRotation;

impl Giving for InRotation {
    const SINGLE: u32 = 1;

    ghost SINGLE = { 1 };

    ghost gives = { rotation_gives };

    ghost keeps = { rotation_keeps };

    // The next turn is counted from the round last told.
    fn turns(told: u32, running: u64) -> u64 {
        turn_of(next_of(running, told as usize % 64))
    }
}

pub type Rotation = ByLastTold<InRotation>;
