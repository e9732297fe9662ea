// Playing a vote file into the caller's slices, so that nothing is allocated.
ghost use Rattle.std.specs.Prelude.{◌≡◌, IfOk};
ghost use Rattle.sets.specs.Search.{when};
ghost use Rattle.recordings.specs.Rooms.{over_if};
ghost use Rattle.recordings.specs.Files.{played};
ghost use Rattle.recordings.specs.Slices.{counted, heads_of, told_by, roomy, play_told};

use crate::faults::NoRoom;
use crate::into::play_into;
use crate::listing::{Outcome, Summary, Told};
use sinks::front::Front;
use votes::stages::Figures;

// The room that a vote file needs: its rounds and its heads at most.
pub const ROUNDS: usize = 10_000;

pub const HEADS: usize = 64;

// Plays the bytes of a vote file. The figures of the rounds heard are written to the front of rounds; where the file
// plays to its end, the outcomes of its heads are written to the front of heads. Nothing is played unless there is room
// for 10,000 rounds and 64 heads.
pub fn play(bytes: &[u8], rounds: &mut [Figures], heads: &mut [Outcome]) -> Result<Summary, NoRoom>
    ensures told { IfOk result (λ s. told_by s rounds.new heads.new ≡ played bytes.now) }
    ensures answer { play_told result ≡ when (roomy rounds.old heads.old) (counted (played bytes.now)) }
    ensures rounds { rounds.new ≡ over_if (roomy rounds.old heads.old) (played bytes.now).rounds rounds.old }
    ensures heads { heads.new ≡ over_if (roomy rounds.old heads.old) (heads_of (played bytes.now)) heads.old }
{
    if rounds.len() < ROUNDS || heads.len() < HEADS {
        return Err(NoRoom);
    }
    let mut rounds = Front {
        list: rounds,
        filled: 0,
    };
    let mut heads = Front {
        list: heads,
        filled: 0,
    };
    let ending = play_into(bytes, &mut rounds, &mut heads)?;
    Ok(Told {
        rounds: rounds.filled,
        ending: ending.map(|()| heads.filled),
    })
}
