// The whole listing.
ghost use Rattle.std.specs.Prelude.{◌≡◌, IfOk};
ghost use Rattle.sinks.specs.Sinks.{Given};
ghost use Rattle.recordings.specs.Files.{listing_as};
ghost use Rattle.recordings.specs.Slices.{slices_as};
ghost use Rattle.listings.specs.Texts.{listing_text, round_lines, head_lines};

use crate::lines::{write_fault, write_head, write_round};
use recordings::listing::{Listing, Outcome, Told};
use sinks::sink::Sink;
use std::alloc::{AllocError, Global};
use votes::stages::Figures;

// The lines of the rounds heard.
pub fn write_rounds<S: Sink<u8>>(out: &mut S, rounds: &[Figures]) -> Result<(), S::Full>
    ensures { Given S.takes S.stops out.old (round_lines rounds.now) result out.new }
{
    for figures in rounds {
        write_round(out, *figures)?;
    }
    Ok(())
}

// The lines of the heads at the end, from head 0 on.
pub fn write_heads<S: Sink<u8>>(out: &mut S, heads: &[Outcome]) -> Result<(), S::Full>
    ensures { Given S.takes S.stops out.old (head_lines 0 heads.now) result out.new }
{
    for (i, outcome) in heads.iter().enumerate() {
        write_head(out, i, *outcome)?;
    }
    Ok(())
}

// A line for every round heard, and then a line for every head, or for the fault.
pub(crate) fn write_all<S: Sink<u8>>(
    out: &mut S,
    told: Told<&[Figures], &[Outcome]>,
) -> Result<(), S::Full>
    ensures { Given S.takes S.stops out.old (listing_text (slices_as told.entry)) result out.new }
{
    write_rounds(out, told.rounds)?;
    match told.ending {
        Ok(heads) => write_heads(out, heads),
        Err(fault) => write_fault(out, fault),
    }
}

// The text of a listing: a line for every round heard, and then a line for every head, or for the fault.
pub fn text_of(heap: Global, listing: &Listing) -> Result<Vec<u8>, AllocError>
    ensures { IfOk result (λ v. v.items ≡ listing_text (listing_as listing.now)) }
{
    let mut out = Vec::new(heap);
    let ending = match &listing.ending {
        Ok(heads) => Ok(heads.as_slice()),
        Err(fault) => Err(*fault),
    };
    let rounds = listing.rounds.as_slice();
    write_all(&mut out, Told { rounds, ending })?;
    Ok(out)
}
