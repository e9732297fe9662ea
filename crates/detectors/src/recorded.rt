// A detector that plays recorded alarms.
ghost use Rattle.std.specs.Prelude.{◌≡◌, ◌≤◌, leb, length, if◌then◌else◌, Ok, Err};
ghost use Rattle.parts.specs.declared.faults.PartFault.TheVariants.{Unfit};
ghost use Rattle.detectors.specs.Recorded.{rounds_of, noted, recorded};
ghost use Rattle.detectors.specs.Keeping.{recorded_keeps};

use heads::alarms::Class;
use parts::detector::Detector;
use parts::faults::PartFault;
use parts::ranges::is_counted;
use parts::words::Words;

// A word a round: the heads that are alarmed in it, beside those whose alarm is due.
#[derive(Clone, Copy)]
pub struct RecordedDetector<S> {
    words: S,
    class: Class,
}

impl<S: Words> RecordedDetector<S> {
    // Over at most 10,000 rounds.
    pub fn new(words: S, class: Class) -> Result<RecordedDetector<S>, PartFault>
        ensures { result ≡ (if leb (length (S.Words.listed words)) 10000 then Ok (record { words = words; class = class }) else Err Unfit) }
    {
        if words.count() > 10000 {
            return Err(PartFault::Unfit);
        }
        Ok(RecordedDetector { words, class })
    }

    // How many rounds are recorded.
    fn rounds(&self) -> u32
        ensures { result ≡ rounds_of (S.Words.listed self.now.words) }
    {
        self.words.count().min(10000) as u32
    }

    // Whether an alarm of the head is recorded in the round.
    fn noted(&self, round: u32, head: usize) -> bool
        requires { 1 ≤ round }
        ensures { result ≡ noted (S.Words.listed self.now.words) round head }
    {
        round <= self.rounds() && sets::has(self.words.word(round as usize - 1), head)
    }
}

impl<S: Words> Detector for RecordedDetector<S> {
    ghost meaning = { λ detector. recorded (S.Words.listed detector.words) detector.class };

    ghost keeps = { λ detector. recorded_keeps (S.Words.listed detector.words) detector.class };

    fn alarms(&self, round: u32, head: usize, c: u32, t: u32) -> bool {
        is_counted(round, head, c, t) && (self.class.due(c, t) || self.noted(round, head))
    }

    fn class(&self) -> Class {
        self.class
    }

    fn quiet_round(&self) -> u32 {
        self.rounds() + 1
    }
}
