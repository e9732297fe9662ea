#![tactic(auto)]
// Plays a recorded vote from standard input, and prints its listing.
use listings::text::text_of;
use recordings::play::play;
use std::alloc::AllocError;
use std::io;
use std::io::{Read, Write};

// The bytes of the longest recording that can be played whole: 64 heads over 10,000 rounds.
const LONGEST: usize = 133 + 538 * 10_000;

// Room for that recording is asked for at once, with a byte to spare: in a vector that is just full, `read_to_end` asks
// for more before it sees the end. Little more than what is read is ever touched.
const ROOM: usize = LONGEST + 1;

// The whole of standard input.
fn read_recording(rt: &HostRuntime) -> io::Result<Vec<u8>> {
    let mut bytes = Vec::with_capacity(rt.alloc(), ROOM)?;
    rt.stdin().read_to_end(&mut bytes)?;
    Ok(bytes)
}

// The listing of a recording, as text.
fn listing_of(rt: &HostRuntime, bytes: &[u8]) -> Result<Vec<u8>, AllocError> {
    let listing = play(rt.alloc(), bytes)?;
    text_of(rt.alloc(), &listing)
}

fn main(rt: HostRuntime) -> anyhow::Result<()> {
    let bytes = match read_recording(&rt) {
        Ok(bytes) => bytes,
        Err(e) => {
            eprintln!(rt; "nooksage: the recording cannot be read: {e}")?;
            return Err(e.into());
        }
    };
    let text = match listing_of(&rt, bytes.as_slice()) {
        Ok(text) => text,
        Err(e) => {
            eprintln!(rt; "nooksage: there is no memory to play the recording")?;
            return Err(e.into());
        }
    };
    if let Err(e) = rt.stdout().write_all(text.as_slice()) {
        eprintln!(rt; "nooksage: the listing cannot be written: {e}")?;
        return Err(e.into());
    }
    Ok(())
}
