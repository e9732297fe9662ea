// A record's fault by its number and the values that it names.
ghost use Rattle.std.specs.Prelude.{◌≡◌};
ghost use Rattle.votes.specs.Faults.{refusal_breach};
ghost use Rattle.recordings.specs.Files.{record_breach};

use crate::faults::RecordFault;
use votes::faults::Refusal;

impl RecordFault {
    // The number of the rule, and the values that it names.
    // Kept: like the vote fault's own, which it hands on.
    pub fn refusal(self) -> Refusal
        ensures { refusal_breach result ≡ record_breach self }
    {
        match self {
            RecordFault::Vote(fault) => fault.refusal(),
            RecordFault::Ends => Refusal::rule(20),
            RecordFault::Mark => Refusal::rule(21),
            RecordFault::Header => Refusal::rule(22),
        }
    }
}
