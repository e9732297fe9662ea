// Spells of interference, laid over any detector.
ghost use Rattle.std.specs.Prelude.{◌≡◌};
ghost use Rattle.parts.specs.Spells.{listed};
ghost use Rattle.detectors.specs.Interference.{disturbed};
ghost use Rattle.parts.proofs.Spanning.{past_most};
ghost use Rattle.detectors.specs.Keeping.{disturbed_keeps};

use heads::alarms::Class;
use parts::detector::Detector;
use parts::ranges::is_counted;
use parts::spells::Spells;

// In a spell all heads are alarmed; otherwise those that the detector below alarms.
// Kept: no layer shared with dead spells, for the reason that is given there.
#[derive(Drop)]
pub struct Interference<D> {
    pub spells: Spells,
    pub below: D,
}

impl<D: Detector> Interference<D> {
    pub fn new(spells: Spells, below: D) -> Interference<D>
        ensures { result ≡ record { spells = spells; below = below } }
    {
        Interference { spells, below }
    }
}

impl<D: Detector> Detector for Interference<D> {
    ghost meaning = { λ layer. disturbed (listed layer.spells) (D.Detector.meaning layer.below) };

    ghost keeps = { λ layer.
        let spells = layer.spells in
        disturbed_keeps (listed spells) (D.Detector.meaning layer.below) (past_most (listed spells) spells.fit) (D.Detector.keeps layer.below) };

    fn alarms(&self, round: u32, head: usize, c: u32, t: u32) -> bool {
        if self.spells.span(round) {
            is_counted(round, head, c, t)
        } else {
            self.below.alarms(round, head, c, t)
        }
    }

    fn class(&self) -> Class {
        self.below.class()
    }

    fn quiet_round(&self) -> u32 {
        self.below.quiet_round().max(self.spells.after())
    }
}
