// A detector that counts: it alarms exactly where a message was missed.
ghost use Rattle.detectors.specs.Exact.{counting};
ghost use Rattle.detectors.specs.Keeping.{counting_keeps};

use heads::alarms::Class;
use parts::detector::Detector;
use parts::ranges::is_counted;

#[derive(Clone, Copy)]
pub struct CountingDetector;

impl Detector for CountingDetector {
    ghost meaning = { λ _. counting };

    ghost keeps = { λ detector. counting_keeps };

    fn alarms(&self, round: u32, head: usize, c: u32, t: u32) -> bool {
        is_counted(round, head, c, t) && t < c
    }

    fn class(&self) -> Class {
        Class::Majority
    }

    fn quiet_round(&self) -> u32 {
        1
    }
}
