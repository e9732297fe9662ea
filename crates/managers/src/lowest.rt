// The manager that gives the turn to the lowest running head.
ghost use Rattle.managers.specs.Turns.{lowest_gives};
ghost use Rattle.managers.specs.Keeping.{lowest_keeps};

use crate::giving::{ByLastTold, Giving};
use crate::turns::{lowest_of, turn_of};

#[derive(Clone, Copy)]
pub struct ToLowest;

impl Giving for ToLowest {
    const SINGLE: u32 = 1;

    ghost SINGLE = { 1 };

    ghost gives = { lowest_gives };

    ghost keeps = { lowest_keeps };

    fn turns(_told: u32, running: u64) -> u64 {
        turn_of(lowest_of(running))
    }
}

pub type Lowest = ByLastTold<ToLowest>;
