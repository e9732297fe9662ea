// Beginning a vote, with the promise.
ghost use Rattle.std.specs.Prelude.{◌≡◌};
ghost use Rattle.votes.specs.Calls.{begin_answer, begun};
ghost use Rattle.runs.specs.Promise.{Promise};

use ballots::Ballot;
use heads::fitted::Fitted;
use votes::faults::Refused;
use votes::stages::{Roll, Vote};

// The vote of the heads enrolled, by one of the methods, over ballots B. The second clause is the promise: what holds of
// every chain of openings, hearings, withdrawals and drivings from a vote just begun.
pub fn begin<B: Ballot, V: Fitted<B> + Drop>(
    roll: Roll,
    method: V,
) -> Result<Vote<V>, Refused<Roll>>
    ensures answer { begin_answer result ≡ begun roll method }
    ensures promise { Promise V B B.Ballot.earlier V.scheme }
{
    roll.begin(method)
}
