// The header of a vote file, and the heads that it enrolls.
ghost use Rattle.std.specs.Prelude.{◌≡◌, ◌+◌, ◌*◌, ◌≤◌, ◌&&◌, true, nat_le, length};
ghost use Rattle.recordings.specs.Files.{FileOf, EnrolledOf, StartedOf};

use crate::bytes::{is_marked, read_u16};
use crate::faults::RecordFault;
use crate::file::File;
use crate::kinds::{BallotKind, VoteKind};
use ballots::Coded;
use driving::begin;
use heads::fitted::Fitted;
use heads::head::Head;
use votes::refusals::ballot_of;
use votes::stages::{Roll, Vote};

// Whether a vote has that many heads.
fn is_head_count(heads: u8) -> bool
    ensures value { result ≡ (nat_le 1 heads && nat_le heads 64) }
    ensures few { result ≡ true → (1 ≤ heads) × (heads ≤ 64) }
{
    heads >= 1 && heads <= 64
}

// The file of those bytes, by the first five of them.
pub(crate) fn read_header(bytes: &[u8]) -> Result<File<'_>, RecordFault>
    ensures { FileOf bytes.now result }
{
    if bytes.len() < 5 {
        return Err(RecordFault::Ends);
    }
    if !is_marked(bytes, 0, b'V', b'H') {
        return Err(RecordFault::Mark);
    }
    let vote = VoteKind::try_from(bytes[2])?;
    let kind = BallotKind::try_from(bytes[3])?;
    if !is_head_count(bytes[4]) {
        return Err(RecordFault::Header);
    }
    Ok(File {
        bytes,
        vote,
        kind,
        heads: bytes[4] as usize,
    })
}

// Enrolls a head for each code.
// Kept: here and in the calls above, a table of as many records as the file has heads; a struct that held both would have
// to give the table back.
fn enroll_all<B: Coded>(file: File<'_>, table: &mut [Head<B>]) -> Result<Roll, RecordFault>
    requires { (length table.old ≡ file.heads) × (5 + 2 * file.heads ≤ length file.bytes.now) }
    ensures { EnrolledOf B.encoded B.decoded file.entry.bytes.now file.entry.heads table.new result }
{
    // Kept: by place, and not by chunks of two. The definitions read a code at a place of the whole file.
    let mut roll = Roll::new();
    for i in 0..file.heads {
        let ballot = ballot_of::<B>(read_u16(file.bytes, 5 + 2 * i))?;
        roll = roll.enroll(table, ballot)?;
    }
    Ok(roll)
}

// The vote of the heads whose codes follow the first five bytes.
pub(crate) fn start<B: Coded, V: Fitted<B> + Drop>(
    method: V,
    file: File<'_>,
    table: &mut [Head<B>],
) -> Result<Vote<V>, RecordFault>
    requires { length table.old ≡ file.heads }
    ensures { StartedOf B.encoded B.decoded file.entry.bytes.now file.entry.heads table.new result }
{
    if file.bytes.len() < 5 + 2 * file.heads {
        return Err(RecordFault::Ends);
    }
    Ok(begin::<B, V>(enroll_all(file, table)?, method)?)
}
