// A detector that tells noise from silence: it alarms exactly where messages were sent and none was heard.
ghost use Rattle.detectors.specs.Exact.{squelch};
ghost use Rattle.detectors.specs.Keeping.{squelch_keeps};

use heads::alarms::Class;
use parts::detector::Detector;
use parts::ranges::is_counted;

#[derive(Clone, Copy)]
pub struct SquelchDetector;

impl Detector for SquelchDetector {
    ghost meaning = { λ _. squelch };

    ghost keeps = { λ detector. squelch_keeps };

    fn alarms(&self, round: u32, head: usize, c: u32, t: u32) -> bool {
        is_counted(round, head, c, t) && c > 0 && t == 0
    }

    fn class(&self) -> Class {
        Class::Zero
    }

    fn quiet_round(&self) -> u32 {
        1
    }
}
