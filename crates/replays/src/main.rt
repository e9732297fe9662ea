#![tactic(auto)]
// Plays many recordings from standard input, each after its length in four bytes, low byte first, and prints the
// listing of each after its number. What it prints is held to what the second model says of the same recordings.
ghost use Rattle.std.specs.Prelude.{◌<◌, length, IfSome};

use listings::text::text_of;
use recordings::play::play;
use std::io::{BufWriter, Read, Write};

// The first recording, and what stands after it.
fn split(bytes: &[u8]) -> Option<(&[u8], &[u8])>
    ensures { IfSome result (λ p. length p.1.now < length bytes.now) }
{
    let (length, rest) = bytes.split_first_chunk::<4>()?;
    rest.split_at_checked(u32::from_le_bytes(*length) as usize)
}

fn run(rt: &HostRuntime) -> anyhow::Result<()> {
    let mut bytes = Vec::new(rt.alloc());
    rt.stdin().read_to_end(&mut bytes)?;
    let mut out = BufWriter::new(rt.alloc(), rt.stdout())?;
    let mut rest = bytes.as_slice();
    let mut number = 0usize;
    while let Some((recording, after)) = split(rest) {
        number += 1;
        rest = after;
        let listing = play(rt.alloc(), recording)?;
        let text = text_of(rt.alloc(), &listing)?;
        writeln!(out, "V {number}")?;
        out.write_all(text.as_slice())?;
    }
    out.flush()?;
    Ok(())
}

fn main(rt: HostRuntime) -> anyhow::Result<()> {
    run(&rt)
}
