// The report that the parts spell.
ghost use Rattle.std.specs.Prelude.{◌≡◌, ◌≤◌, map, length, slice_index};
ghost use Rattle.std.specs.List.{range_with_len};
ghost use Rattle.sets.specs.Sets.{word_of};
ghost use Rattle.runs.specs.Driving.{word_for, alarm_for};

use parts::channel::Channel;
use parts::detector::Detector;
use votes::heard_of;

// A round as it is driven: its number, who runs and who sends.
#[derive(Clone, Copy)]
pub(crate) struct Round {
    pub(crate) number: u32,
    pub(crate) running: u64,
    pub(crate) senders: u64,
}

impl Round {
    // What head i hears: nothing unless it runs.
    fn word_for<C: Channel>(self, channel: &C, i: usize) -> u64
        ensures { result ≡ word_for (C.Channel.meaning channel.now) self.number self.running self.senders i }
    {
        if sets::has(self.running, i) {
            channel.heard(self.number, i, self.senders)
        } else {
            0
        }
    }

    // Puts in a hear word for each head.
    pub(crate) fn put_words<C: Channel>(self, channel: &C, list: &mut [u64])
        ensures { list.new ≡ map (word_for (C.Channel.meaning channel.now) self.number self.running self.senders) (range_with_len 0 (length list.old)) }
    {
        for (i, word) in list.iter_mut().enumerate() {
            *word = self.word_for(channel, i);
        }
    }

    // Whether head i is alarmed: not unless it runs.
    fn alarm_for<D: Detector>(self, detector: &D, word: u64, i: usize) -> bool
        ensures { result ≡ alarm_for (D.Detector.meaning detector.now) self.number self.running self.senders word i }
    {
        let c = sets::size(self.senders);
        let t = heard_of(self.senders, word);
        sets::has(self.running, i) && detector.alarms(self.number, i, c, t)
    }

    // The heads that are alarmed.
    pub(crate) fn alarms<D: Detector>(self, detector: &D, words: &[u64]) -> u64
        requires { length words.now ≤ 64 }
        ensures { result ≡ word_of (length words.now) (λ i. alarm_for (D.Detector.meaning detector.now) self.number self.running self.senders (slice_index words.now i) i) }
    {
        // Kept: the like loop of `votes` is over records and private; a public one over any test would need a `requires`.
        let mut alarms = 0;
        for (i, &word) in words.iter().enumerate() {
            if self.alarm_for(detector, word, i) {
                alarms |= 1 << i;
            }
        }
        alarms
    }
}
