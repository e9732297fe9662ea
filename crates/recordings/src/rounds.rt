// The rounds of a vote file.
ghost use Rattle.std.specs.Prelude.{◌≡◌, ◌+◌, ◌*◌, ◌≤◌, [], length, Ok, Err, OnOk};
ghost use Rattle.recordings.specs.Files.Progress.{going};
ghost use Rattle.votes.specs.Calls.{changed};
ghost use Rattle.recordings.specs.declared.faults.RecordFault.TheVariants.{Vote as VoteLayer};
ghost use Rattle.recordings.specs.Files.{round_size, checked, round_breach, play_breach, records_after, play_answer, played_one, played_from};
ghost use Rattle.recordings.specs.Into.{RoundsTo};

use crate::bytes::{is_marked, read_u64, read_words};
use crate::faults::{FileFault, RecordFault};
use ballots::Ballot;
use heads::head::Head;
use heads::method::Method;
use sinks::sink::Sink;
use votes::faults::{Refused, VoteFault};
use votes::stages::{Figures, HeardRound, OpenRound, Roll, Vote};

impl From<VoteFault> for RecordFault {
    ghost from_gives = { λ e r. r ≡ VoteLayer e };

    fn from(e: VoteFault) -> RecordFault {
        RecordFault::Vote(e)
    }
}

// Kept: two impls. One for each T that can be dropped conflicts with that of an open round, which is withdrawn.
impl From<Refused<Roll>> for RecordFault {
    ghost from_gives = { λ e r. r ≡ VoteLayer e.fault };

    fn from(e: Refused<Roll>) -> RecordFault {
        let Refused { back: _, fault } = e;
        RecordFault::Vote(fault)
    }
}

impl<V: Drop> From<Refused<Vote<V>>> for RecordFault {
    ghost from_gives = { λ e r. r ≡ VoteLayer e.fault };

    fn from(e: Refused<Vote<V>>) -> RecordFault {
        let Refused { back: _, fault } = e;
        RecordFault::Vote(fault)
    }
}

// A refused hearing leaves its round open, so that it is withdrawn here.
impl<V: Drop + Copy> From<Refused<OpenRound<V>>> for RecordFault {
    ghost from_gives = { λ e r. r ≡ VoteLayer e.fault };

    fn from(e: Refused<OpenRound<V>>) -> RecordFault {
        let Refused { back, fault } = e;
        let _ = back.withdraw();
        RecordFault::Vote(fault)
    }
}

// Whether a whole round record of n words stands at a place.
// Kept: bytes and a place, here and below, and no slice of a record. The definitions read at places of the whole file.
fn check_round(bytes: &[u8], at: usize, n: usize) -> Result<(), RecordFault>
    requires { (n ≤ 64) × (at ≤ length bytes.now) }
    ensures whole { OnOk result (at + round_size n ≤ length bytes.now) }
    ensures value { checked result ≡ round_breach bytes.now at n }
{
    if bytes.len() - at < 26 + 8 * n {
        return Err(RecordFault::Ends);
    }
    if !is_marked(bytes, at, b'R', b'D') {
        return Err(RecordFault::Mark);
    }
    Ok(())
}

// Plays the round record at a place; its hear words are read into words.
pub(crate) fn play_round<B: Ballot, V: Method<B> + Drop>(
    vote: Vote<V>,
    table: &mut [Head<B>],
    words: &mut [u64],
    bytes: &[u8],
    at: usize,
) -> Result<HeardRound<V>, RecordFault>
    requires { (length words.old ≡ vote.n) × (at ≤ length bytes.now) }
    ensures whole { OnOk result (at + round_size vote.n ≤ length bytes.now) }
    ensures answer { play_answer result ≡ played_one B.earlier V.Method.scheme vote bytes.now at table.old }
    ensures table { table.new ≡ changed (play_breach B.earlier V.Method.scheme vote.n bytes.now at (vote.heard + 1) table.old) (records_after B.earlier V.Method.scheme vote.n bytes.now at (vote.heard + 1) table.old) table.old }
{
    check_round(bytes, at, words.len())?;
    read_words(bytes, at + 26, words);
    let open = vote.open(table, read_u64(bytes, at + 2))?;
    Ok(open.hear(
        table,
        words,
        read_u64(bytes, at + 18),
        read_u64(bytes, at + 10),
    )?)
}

// Plays the rounds from a place on; the figures of those heard go into rounds. The answer is the fault that ended it, if one did.
// Kept: six parameters: a vote, the caller's table, words and sink, and the file and a place in it, as said above.
pub(crate) fn play_rounds<B: Ballot, V: Method<B> + Drop, S: Sink<Figures>>(
    start: Vote<V>,
    table: &mut [Head<B>],
    words: &mut [u64],
    bytes: &[u8],
    from: usize,
    rounds: &mut S,
) -> Result<Result<(), FileFault>, S::Full>
    requires { (length words.old ≡ start.n) × ((start.heard ≡ 0) × (from ≤ length bytes.now)) }
    ensures { RoundsTo S.takes S.stops (played_from B.earlier V.Method.scheme start.n bytes.now (length bytes.now) from (going [] table.old)) rounds.old result rounds.new table.new }
{
    // Kept: a place that goes on, and not chunks. A fault names the place where its record starts, and the last may be short.
    let mut vote = start;
    let mut at = from;
    while at < bytes.len() {
        match play_round(vote, table, words, bytes, at) {
            Ok(heard) => {
                let HeardRound {
                    vote: next,
                    figures,
                } = heard;
                rounds.put(figures)?;
                vote = next;
                at += 26 + 8 * words.len();
            }
            Err(fault) => return Ok(Err(FileFault { byte: at, fault })),
        }
    }
    Ok(Ok(()))
}
