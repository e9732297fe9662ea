// Dead spells, laid over any channel.
ghost use Rattle.std.specs.Prelude.{◌≡◌};
ghost use Rattle.parts.specs.Spells.{listed};
ghost use Rattle.channels.specs.Dead.{deadened};
ghost use Rattle.parts.proofs.Spanning.{past_most};
ghost use Rattle.channels.specs.Keeping.{deadened_keeps};

use parts::channel::Channel;
use parts::ranges::at_head;
use parts::spells::Spells;

// In a spell a head hears itself alone; otherwise those that it hears on the channel below.
// Kept: no layer shared with interference: neither crate sees the other, so it would be in parts with the rules of both.
#[derive(Drop)]
pub struct DeadSpells<C> {
    pub spells: Spells,
    pub below: C,
}

impl<C: Channel> DeadSpells<C> {
    pub fn new(spells: Spells, below: C) -> DeadSpells<C>
        ensures { result ≡ record { spells = spells; below = below } }
    {
        DeadSpells { spells, below }
    }
}

impl<C: Channel> Channel for DeadSpells<C> {
    ghost meaning = { λ layer. deadened (listed layer.spells) (C.Channel.meaning layer.below) };

    ghost keeps = { λ layer.
        let spells = layer.spells in
        deadened_keeps (listed spells) (C.Channel.meaning layer.below) (past_most (listed spells) spells.fit) (C.Channel.keeps layer.below) };

    fn heard(&self, round: u32, hearer: usize, senders: u64) -> u64 {
        if !self.spells.span(round) {
            self.below.heard(round, hearer, senders)
        } else if at_head(round, hearer) {
            sets::only(senders, hearer)
        } else {
            0
        }
    }

    fn clear_round(&self) -> u32 {
        self.below.clear_round().max(self.spells.after())
    }
}
