// A channel on which the nearest sender drowns the others.
ghost use Rattle.std.specs.Prelude.{◌≡◌, ◌≤◌, length, if◌then◌else◌, Ok, Err, nat_le, slice_index};
ghost use Rattle.parts.specs.declared.faults.PartFault.TheVariants.{Unfit};
ghost use Rattle.channels.specs.Capture.{apart, nearer, closer, Found, all_placed, placed, filled_up, captured, capture};
ghost use Rattle.channels.specs.Captured.{capture_keeps};

use parts::channel::Channel;
use parts::faults::PartFault;
use parts::ranges::at_head;

// Where each head stands, on a line.
#[derive(Clone, Copy)]
pub struct CaptureChannel {
    positions: [u16; 64],
}

// Whether the position is one of 0 to 999.
fn is_placed(position: u16) -> bool
    ensures { result ≡ nat_le position 999 }
{
    position <= 999
}

// Whether each of the positions is.
fn all_placed(positions: &[u16]) -> bool
    ensures { result ≡ all_placed positions.now }
{
    positions.iter().all(|position| is_placed(*position))
}

// The positions of all 64 heads; those past the list stand at 0.
fn filled_up(positions: &[u16]) -> [u16; 64]
    requires { length positions.now ≤ 64 }
    ensures { result ≡ filled_up positions.now }
{
    let mut table = [0; 64];
    table[..positions.len()].copy_from_slice(positions);
    table
}

impl CaptureChannel {
    // Of 1 to 64 heads by their positions, 0 to 999 each; heads past them stand at 0.
    pub fn new(positions: &[u16]) -> Result<CaptureChannel, PartFault>
        ensures { result ≡ (if placed positions.now then Ok (record { positions = filled_up positions.now }) else Err Unfit) }
    {
        let n = positions.len();
        if n < 1 || n > 64 || !all_placed(positions) {
            return Err(PartFault::Unfit);
        }
        Ok(CaptureChannel {
            positions: filled_up(positions),
        })
    }

    // The position of a head; 0 of a number past 63.
    fn position(&self, head: usize) -> u16
        ensures { result ≡ slice_index self.now.positions head }
    {
        self.positions.get(head).copied().unwrap_or(0)
    }

    // How far apart two heads stand.
    fn apart(&self, a: usize, b: usize) -> u16
        ensures { result ≡ apart self.now.positions a b }
    {
        self.position(a).abs_diff(self.position(b))
    }

    // Whether head i is nearer to the hearer than the nearest so far.
    fn nearer(&self, hearer: usize, i: usize, found: Option<usize>) -> bool
        ensures { result ≡ nearer self.now.positions hearer i found }
    {
        found.is_none_or(|best| self.apart(hearer, i) < self.apart(hearer, best))
    }

    // The nearest so far, once head i is looked at.
    fn closer(&self, hearer: usize, senders: u64, found: Option<usize>, i: usize) -> Option<usize>
        ensures { result ≡ closer self.now.positions hearer senders found i }
    {
        if sets::has(senders, i) && i != hearer && self.nearer(hearer, i, found) {
            Some(i)
        } else {
            found
        }
    }

    // The nearest sender to the hearer but for itself, the lower number on a tie.
    fn nearest(&self, hearer: usize, senders: u64) -> Option<usize>
        ensures { Found self.now.positions hearer senders 64 result }
    {
        // Kept: a fold, since the clauses of `min_by_key` do not say that it takes the first of the least.
        (0..64).fold(None, |found, i| self.closer(hearer, senders, found, i))
    }

    // The hearer, if it sends, and the nearest other sender.
    fn captured(&self, hearer: usize, senders: u64) -> u64
        ensures { result ≡ captured self.now.positions hearer senders }
    {
        let own = sets::only(senders, hearer);
        match self.nearest(hearer, senders) {
            Some(i) => sets::joined(own, sets::only(senders, i)),
            None => own,
        }
    }
}

impl Channel for CaptureChannel {
    ghost meaning = { λ channel. capture channel.positions };

    ghost keeps = { λ channel. capture_keeps channel.positions };

    fn heard(&self, round: u32, hearer: usize, senders: u64) -> u64 {
        if at_head(round, hearer) {
            self.captured(hearer, senders)
        } else {
            0
        }
    }

    fn clear_round(&self) -> u32 {
        1
    }
}
