// A channel on which all are heard.
ghost use Rattle.channels.specs.Clear.{clear};
ghost use Rattle.channels.specs.Keeping.{clear_keeps};

use parts::channel::Channel;
use parts::ranges::at_head;

#[derive(Clone, Copy)]
pub struct ClearChannel;

impl Channel for ClearChannel {
    ghost meaning = { λ _. clear };

    ghost keeps = { λ channel. clear_keeps };

    fn heard(&self, round: u32, hearer: usize, senders: u64) -> u64 {
        if at_head(round, hearer) { senders } else { 0 }
    }

    fn clear_round(&self) -> u32 {
        1
    }
}
