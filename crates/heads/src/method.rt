// The interface of a vote: what one head says and keeps, by its record and what it heard alone.
ghost use Rattle.std.specs.Prelude.{◌≡◌, ℕ};
ghost use Rattle.heads.specs.Rules.{Scheme, of_ballots, class_of, due, strict, says, keeps};

use crate::alarms::Class;
use crate::head::{Head, Heard};

// One of the votes, over ballots B.
pub trait Method<B>: Copy {
    // which of the votes it is
    ghost scheme: { Scheme B };

    // Whether heads with a turn send their estimates in that round.
    fn of_ballots(self, round: u32) -> bool
        ensures { result ≡ of_ballots scheme round };

    // The class of the collision detector whose due alarms the vote asks for.
    fn class(self) -> Class
        ensures { result ≡ class_of scheme };

    // Whether an alarm is due at a head that heard t of c messages.
    final fn due(self, c: u32, t: u32) -> bool
        ensures { result ≡ due scheme c t }
    {
        self.class().due(c, t)
    }

    // Whether a false alarm is refused.
    fn strict(self) -> bool
        ensures { result ≡ strict scheme };

    // Whether a running head sends, with or without a turn.
    fn says(self, round: u32, turn: bool, head: Head<B>) -> bool
        ensures { result ≡ says scheme round turn head };

    // A running head's record after what it heard.
    fn keeps(self, round: u32, heard: Heard<B>, head: Head<B>) -> Head<B>
        ensures { result ≡ keeps scheme round heard head };
}
