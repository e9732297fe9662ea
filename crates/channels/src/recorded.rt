// A channel that plays recorded rounds.
ghost use Rattle.std.specs.Prelude.{◌≡◌, ◌≤◌, if◌then◌else◌, Ok, Err};
ghost use Rattle.parts.specs.declared.faults.PartFault.TheVariants.{Unfit};
ghost use Rattle.channels.specs.Recorded.{fitting, rounds_of, word_at, played, recorded};
ghost use Rattle.channels.specs.Keeping.{recorded_keeps};

use parts::channel::Channel;
use parts::faults::PartFault;
use parts::ranges::at_head;
use parts::words::Words;

// A list of n words a round: word h of a round has those that head h hears in it.
// Kept: no reader shared with recorded alarms: theirs has one word a round, and each part would owe an invariant for it.
#[derive(Clone, Copy)]
pub struct RecordedChannel<S> {
    words: S,
    n: u32,
}

// The hearer, if it sends, and those of the senders that its recorded word has.
fn played(word: u64, hearer: usize, senders: u64) -> u64
    ensures { result ≡ played word hearer senders }
{
    sets::joined(sets::only(senders, hearer), sets::shared(senders, word))
}

impl<S: Words> RecordedChannel<S> {
    // Over whole rounds of 1 to 64 words, at most 10,000 of them.
    pub fn new(words: S, n: usize) -> Result<RecordedChannel<S>, PartFault>
        ensures { result ≡ (if fitting (S.Words.listed words) n then Ok (record { words = words; n = n }) else Err Unfit) }
    {
        if n < 1 || n > 64 {
            return Err(PartFault::Unfit);
        }
        let count = words.count();
        if count % n != 0 || count / n > 10000 {
            return Err(PartFault::Unfit);
        }
        Ok(RecordedChannel { words, n: n as u32 })
    }

    // How many rounds are recorded.
    fn rounds(&self) -> u32
        ensures { result ≡ rounds_of (S.Words.listed self.now.words) self.now.n }
    {
        if self.n == 0 {
            return 0;
        }
        (self.words.count() / self.n as usize).min(10000) as u32
    }

    // The recorded word of the head; 0 for a head past the n of the list.
    fn word(&self, round: u32, hearer: usize) -> u64
        requires { (1 ≤ round) × (round ≤ 10000) }
        ensures { result ≡ word_at (S.Words.listed self.now.words) self.now.n round hearer }
    {
        let n = self.n as usize;
        if hearer < n {
            self.words.word((round as usize - 1) * n + hearer)
        } else {
            0
        }
    }
}

impl<S: Words> Channel for RecordedChannel<S> {
    ghost meaning = { λ channel. recorded (S.Words.listed channel.words) channel.n };

    ghost keeps = { λ channel. recorded_keeps (S.Words.listed channel.words) channel.n };

    fn heard(&self, round: u32, hearer: usize, senders: u64) -> u64 {
        if !at_head(round, hearer) {
            return 0;
        }
        if round > self.rounds() {
            return senders;
        }
        played(self.word(round, hearer), hearer, senders)
    }

    fn clear_round(&self) -> u32 {
        self.rounds() + 1
    }
}
