// The channel: which of the senders a head hears.
ghost use Rattle.std.specs.Prelude.{◌≡◌};
ghost use Rattle.parts.specs.Channels.{Meaning, Keeps};

pub trait Channel {
    ghost meaning: { Self → Meaning };

    // Those of the senders that the hearer hears.
    // Kept: each channel tests the range itself, as its rule says what is heard out of range too; a default method around
    // it would add a second method and a second rule to every channel.
    fn heard(&self, round: u32, hearer: usize, senders: u64) -> u64
        ensures { result ≡ (meaning self.now).rule round hearer senders };

    // The round from which on all hear a lone sender.
    fn clear_round(&self) -> u32
        ensures { result ≡ (meaning self.now).clear };

    ghost keeps: { (channel : Self) → Keeps (meaning channel) };
}
