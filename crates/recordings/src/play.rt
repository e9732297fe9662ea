// Playing a vote file.
ghost use Rattle.std.specs.Prelude.{◌≡◌, IfOk};
ghost use Rattle.recordings.specs.Files.{listing_as, played};

use crate::into::play_into;
use crate::listing::{Listing, Told};
use std::alloc::{AllocError, Global};

// Plays the bytes of a vote file; the error is for want of memory.
pub fn play(heap: Global, bytes: &[u8]) -> Result<Listing, AllocError>
    ensures { IfOk result (λ l. listing_as l ≡ played bytes.now) }
{
    let mut rounds = Vec::new(heap);
    let mut heads = Vec::new(heap);
    let ending = play_into(bytes, &mut rounds, &mut heads)?;
    Ok(Told {
        rounds,
        ending: ending.map(|()| heads),
    })
}
