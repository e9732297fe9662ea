// The whole listing on a page of the caller's, so that nothing is allocated.
ghost use Rattle.std.specs.Prelude.{◌≡◌, ◌≤◌, length, take, IfOk, if◌then◌else◌, None};
ghost use Rattle.sinks.specs.Overs.{over};
ghost use Rattle.recordings.specs.Rooms.{over_if};
ghost use Rattle.listings.specs.Texts.{listing_text};
ghost use Rattle.listings.specs.Pages.{fitting, answered};
ghost use Rattle.recordings.specs.Files.{played};
ghost use Rattle.recordings.specs.Slices.{told_by, heads_of, roomy};

use crate::text::write_all;
use recordings::faults::NoRoom;
use recordings::listing::{Outcome, Summary, Told};
use recordings::slices::play;
use sinks::front::Front;
use votes::stages::Figures;

// The first n of a list, or all where there are fewer.
fn front<T>(list: &[T], n: usize) -> &[T]
    ensures { result.now ≡ take n list.now }
{
    list.get(0..n).unwrap_or(list)
}

// Writes the listing of a played vote to the page: a line for every round heard, and then a line for every head, or for
// the fault. The rounds and the heads are those at the front of the slices, as many as the summary says. Where the page
// is too short, it is filled with as much of the text as it holds.
pub fn write_listing(
    summary: Summary,
    rounds: &[Figures],
    heads: &[Outcome],
    page: &mut [u8],
) -> Result<usize, NoRoom>
    ensures within { IfOk result (λ n. n ≤ length page.old) }
    ensures answer { answered result ≡ fitting (listing_text (told_by summary rounds.now heads.now)) page.old }
    ensures page { page.new ≡ over (listing_text (told_by summary rounds.now heads.now)) page.old }
{
    let mut out = Front {
        list: page,
        filled: 0,
    };
    let told = Told {
        rounds: front(rounds, summary.rounds),
        ending: summary.ending.map(|n| front(heads, n)),
    };
    write_all(&mut out, told)?;
    Ok(out.filled)
}

// Plays the bytes of a vote file, and writes its listing to the page. The rounds and the heads are left in the slices, as
// play leaves them; where they have too little room, nothing is written.
pub fn list_vote(
    bytes: &[u8],
    rounds: &mut [Figures],
    heads: &mut [Outcome],
    page: &mut [u8],
) -> Result<usize, NoRoom>
    ensures within { IfOk result (λ n. n ≤ length page.old) }
    ensures answer { answered result ≡ (if roomy rounds.old heads.old then fitting (listing_text (played bytes.now)) page.old else None) }
    ensures page { page.new ≡ over_if (roomy rounds.old heads.old) (listing_text (played bytes.now)) page.old }
    ensures rounds { rounds.new ≡ over_if (roomy rounds.old heads.old) (played bytes.now).rounds rounds.old }
    ensures heads { heads.new ≡ over_if (roomy rounds.old heads.old) (heads_of (played bytes.now)) heads.old }
{
    let summary = play(bytes, rounds, heads)?;
    write_listing(summary, rounds, heads, page)
}
