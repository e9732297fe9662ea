#![tactic(auto)]
// A channel of a site's own, beside those of the crate channels: its radios cannot hear while they send.
ghost use Rattle.site_channel.specs.HalfDuplex.{half_duplex};
ghost use Rattle.site_channel.specs.Keeping.{half_duplex_keeps};

use parts::channel::Channel;
use parts::ranges::at_head;

// A head that sends hears itself alone; a head that does not hears all who send.
#[derive(Clone, Copy)]
pub struct HalfDuplex;

impl Channel for HalfDuplex {
    ghost meaning = { λ _. half_duplex };

    ghost keeps = { λ channel. half_duplex_keeps };

    fn heard(&self, round: u32, hearer: usize, senders: u64) -> u64 {
        if !at_head(round, hearer) {
            0
        } else if sets::has(senders, hearer) {
            sets::one(hearer)
        } else {
            senders
        }
    }

    fn clear_round(&self) -> u32 {
        1
    }
}
