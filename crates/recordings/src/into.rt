// Playing a vote file into sinks: the figures of its rounds go into one, and how its heads stand at the end into another.
ghost use Rattle.std.specs.Prelude.{◌≡◌, map, length};
ghost use Rattle.heads.specs.Rules.{fresh};
ghost use Rattle.sinks.specs.Sinks.{Given};
ghost use Rattle.recordings.specs.Files.{outcome_of, progress_of, played_as, scheme_of, played_kind, played};
ghost use Rattle.recordings.specs.Into.{RoundsTo, PlayedTo};

use crate::faults::FileFault;
use crate::file::File;
use crate::header::{read_header, start};
use crate::kinds::{BallotKind, VoteKind};
use crate::listing::Outcome;
use crate::rounds::play_rounds;
use ballots::Coded;
use ballots::kinds::{Recipe, Ticket};
use heads::bitwise::Bitwise;
use heads::fitted::Fitted;
use heads::head::{Head, State};
use heads::short::Short;
use heads::split::Split;
use sinks::sink::Sink;
use votes::stages::Figures;

// How a head stands at the end.
impl<B: Coded> From<Head<B>> for Outcome {
    ghost from_gives = { λ h r. r ≡ outcome_of B.encoded h };

    fn from(h: Head<B>) -> Outcome {
        match h.state {
            State::Running => Outcome::Running,
            State::Decided => Outcome::Decided(h.estimate.code()),
            State::Stopped => Outcome::Stopped,
        }
    }
}

// Lists how each head stands at the end.
fn list_outcomes<B: Coded, S: Sink<Outcome>>(
    table: &[Head<B>],
    heads: &mut S,
) -> Result<(), S::Full>
    ensures { Given S.takes S.stops heads.old (map (outcome_of B.encoded) table.now) result heads.new }
{
    for h in table {
        heads.put(Outcome::from(*h))?;
    }
    Ok(())
}

// Plays the file on the table and a list of as many words. The answer is the fault that ended it, if one did.
fn play_table<B: Coded, V: Fitted<B> + Drop, S: Sink<Figures>>(
    method: V,
    file: File<'_>,
    table: &mut [Head<B>],
    words: &mut [u64],
    rounds: &mut S,
) -> Result<Result<(), FileFault>, S::Full>
    requires { (length table.old ≡ file.heads) × (length words.old ≡ file.heads) }
    ensures { RoundsTo S.takes S.stops (progress_of B.Ballot.earlier B.encoded B.decoded V.Method.scheme file.entry.heads file.entry.bytes.now) rounds.old result rounds.new table.new }
{
    match start(method, file, table) {
        Ok(vote) => play_rounds(vote, table, words, file.bytes, 5 + 2 * file.heads, rounds),
        Err(fault) => Ok(Err(FileFault { byte: 0, fault })),
    }
}

// Plays the file by one method, with a record of the table for each head.
fn play_as<B: Coded, V: Fitted<B> + Drop, R: Sink<Figures>, H: Sink<Outcome, Full = R::Full>>(
    method: V,
    file: File<'_>,
    table: &mut [Head<B>],
    rounds: &mut R,
    heads: &mut H,
) -> Result<Result<(), FileFault>, R::Full>
    requires { length table.old ≡ file.heads }
    ensures { PlayedTo R.takes R.stops H.takes H.stops (played_as B.Ballot.earlier B.encoded B.decoded V.Method.scheme file.entry.heads file.entry.bytes.now) rounds.old rounds.new heads.old heads.new result }
{
    let mut words = [0u64; 64];
    let ending = play_table(method, file, table, &mut words[0..file.heads], rounds)?;
    if ending.is_ok() {
        list_outcomes(table, heads)?;
    }
    Ok(ending)
}

// Plays the file, with a record of the table for each head.
// Kept: a match, since each arm plays by another type; a `dyn` would carry neither the vote's rules nor its laws.
fn play_kind<B: Coded, R: Sink<Figures>, H: Sink<Outcome, Full = R::Full>>(
    file: File<'_>,
    table: &mut [Head<B>],
    rounds: &mut R,
    heads: &mut H,
) -> Result<Result<(), FileFault>, R::Full>
    requires { length table.old ≡ file.heads }
    ensures { PlayedTo R.takes R.stops H.takes H.stops (played_as B.Ballot.earlier B.encoded B.decoded (scheme_of file.entry.vote B.W B.encoded B.decoded) file.entry.heads file.entry.bytes.now) rounds.old rounds.new heads.old heads.new result }
{
    match file.vote {
        VoteKind::Short => play_as::<B, Short, R, H>(Short, file, table, rounds, heads),
        VoteKind::Bit => play_as::<B, Bitwise, R, H>(Bitwise, file, table, rounds, heads),
        VoteKind::Split => play_as::<B, Split, R, H>(Split, file, table, rounds, heads),
    }
}

// A record that names no head yet: what it holds is written over before it is read.
fn vacant<B: Coded>() -> Head<B>
    ensures { result ≡ fresh (B.decoded 0) }
{
    Head::new(B::from_code(0))
}

// Plays the file.
fn play_file<R: Sink<Figures>, H: Sink<Outcome, Full = R::Full>>(
    file: File<'_>,
    rounds: &mut R,
    heads: &mut H,
) -> Result<Result<(), FileFault>, R::Full>
    ensures { PlayedTo R.takes R.stops H.takes H.stops (played_kind file.entry.kind file.entry.vote file.entry.heads file.entry.bytes.now) rounds.old rounds.new heads.old heads.new result }
{
    // Kept: a table for each kind, and a short one for few heads. That 64 records of any B fit in memory isn't known where B
    // is a parameter, and to fill as many takes longer than to play a short recording.
    let n = file.heads;
    match file.kind {
        BallotKind::Recipe if n <= 8 => {
            play_kind(file, &mut [vacant::<Recipe>(); 8][0..n], rounds, heads)
        }
        BallotKind::Ticket if n <= 8 => {
            play_kind(file, &mut [vacant::<Ticket>(); 8][0..n], rounds, heads)
        }
        BallotKind::Recipe => play_kind(file, &mut [vacant::<Recipe>(); 64][0..n], rounds, heads),
        BallotKind::Ticket => play_kind(file, &mut [vacant::<Ticket>(); 64][0..n], rounds, heads),
    }
}

// Plays the bytes of a vote file. The answer is the fault that ended it, if one did; the error is that of a sink.
pub(crate) fn play_into<R: Sink<Figures>, H: Sink<Outcome, Full = R::Full>>(
    bytes: &[u8],
    rounds: &mut R,
    heads: &mut H,
) -> Result<Result<(), FileFault>, R::Full>
    ensures { PlayedTo R.takes R.stops H.takes H.stops (played bytes.now) rounds.old rounds.new heads.old heads.new result }
{
    match read_header(bytes) {
        Ok(file) => play_file(file, rounds, heads),
        Err(fault) => Ok(Err(FileFault { byte: 0, fault })),
    }
}
