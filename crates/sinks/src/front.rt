// The front of a caller's slice.
ghost use Rattle.sinks.specs.Fronts.{Filled, Full, front_laws};

use crate::sink::Sink;

// The slice has no room for one more.
#[derive(Clone, Copy, Debug, PartialEq, Eq)]
pub struct NoRoom;

// A slice that is written over from its front on.
#[derive(Drop)]
pub struct Front<'a, T> {
    pub list: &'a mut [T],
    // how many were written
    // Kept: a count beside a slice, since what lies past it is in the contract too.
    pub filled: usize,
}

impl<'a, T: Copy> Sink<T> for Front<'a, T> {
    type Full = NoRoom;

    ghost takes = { Filled };

    ghost stops = { Full };

    fn put(&mut self, item: T) -> Result<(), NoRoom> {
        if self.filled >= self.list.len() {
            return Err(NoRoom);
        }
        self.list[self.filled] = item;
        self.filled += 1;
        Ok(())
    }

    ghost laws = { front_laws };
}
