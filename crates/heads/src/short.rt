// The short vote: ballots in odd rounds, vetoes in even ones.
ghost use Rattle.std.specs.Prelude.{◌≡◌};
ghost use Rattle.heads.specs.Rules.{says, keeps};
ghost use Rattle.heads.specs.Rules.Scheme.{short};

use crate::alarms::Class;
use crate::head::{Head, Heard};
use crate::method::Method;
use ballots::Ballot;

#[derive(Clone, Copy)]
pub struct Short;

impl<B: Ballot> Method<B> for Short {
    ghost scheme = { short };

    fn of_ballots(self, round: u32) -> bool {
        round % 2 == 1
    }

    fn class(self) -> Class {
        Class::Majority
    }

    fn strict(self) -> bool {
        false
    }

    fn says(self, round: u32, turn: bool, head: Head<B>) -> bool
        ensures { result ≡ says short round turn head }
    {
        if round % 2 == 1 { turn } else { !head.flag }
    }

    fn keeps(self, round: u32, heard: Heard<B>, head: Head<B>) -> Head<B>
        ensures { result ≡ keeps short round heard head }
    {
        if round % 2 == 1 {
            head.moved(!(heard.alarm || heard.ballots.differ), heard)
        } else if !heard.is_noisy() && head.ballots.is_one() {
            head.decided()
        } else {
            head
        }
    }
}
