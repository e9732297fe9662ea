// Enrolling heads, and beginning a vote.
ghost use Rattle.std.specs.Prelude.{◌≡◌, ◌<◌, false};
ghost use Rattle.votes.specs.Calls.{full, roll_answer, enrolled, enrolled_table, begin_answer, begun};

use crate::faults::{Refused, VoteFault};
use crate::stages::{Roll, Vote};
use heads::head::Head;

// Whether the roll or the table has no room for a head more.
fn is_full(n: usize, room: usize) -> bool
    ensures value { result ≡ full n room }
    ensures rest { result ≡ false → (n < 64) × (n < room) }
{
    n >= 64 || n >= room
}

impl Roll {
    // A roll with no head.
    pub fn new() -> Roll
        ensures { result.n ≡ 0 }
    {
        Roll { n: 0 }
    }

    // One head more, with its first ballot; its record is written into the table.
    pub fn enroll<B: Copy>(self, table: &mut [Head<B>], ballot: B) -> Result<Roll, Refused<Roll>>
        ensures answer { roll_answer result ≡ enrolled self table.old }
        ensures table { table.new ≡ enrolled_table self table.old ballot }
    {
        if is_full(self.n, table.len()) {
            return Err(Refused {
                back: self,
                fault: VoteFault::RollFull,
            });
        }
        table[self.n] = Head::new(ballot);
        Ok(Roll { n: self.n + 1 })
    }

    // The vote of the heads enrolled, by one of the methods.
    pub fn begin<V>(self, method: V) -> Result<Vote<V>, Refused<Roll>>
    where
        V: Drop,
        ensures { begin_answer result ≡ begun self method }
    {
        if self.n == 0 {
            return Err(Refused {
                back: self,
                fault: VoteFault::NoHeads,
            });
        }
        Ok(Vote {
            n: self.n,
            heard: 0,
            method,
        })
    }
}
