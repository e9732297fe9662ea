// A part chosen while the program runs: one of three, which is asked whatever the part is asked.
ghost use Rattle.drives.specs.Choices.{chosen};
ghost use Rattle.drives.specs.declared.one_of.OneOf.TheVariants.{First, Second, Third};

use heads::alarms::Class;
use parts::channel::Channel;
use parts::detector::Detector;

// Kept: tried &dyn: an impl of Channel for it cannot name the law of the dyn, which driving asks for.
#[derive(Clone, Copy)]
pub enum OneOf<X, Y, Z> {
    First(X),
    Second(Y),
    Third(Z),
}

impl<X: Channel, Y: Channel, Z: Channel> Channel for OneOf<X, Y, Z> {
    ghost meaning = { chosen X.Channel.meaning Y.Channel.meaning Z.Channel.meaning };

    ghost keeps = { elim [
      | First x ↦ X.Channel.keeps x
      | Second y ↦ Y.Channel.keeps y
      | Third z ↦ Z.Channel.keeps z
    ] };

    fn heard(&self, round: u32, hearer: usize, senders: u64) -> u64 {
        match self {
            OneOf::First(part) => part.heard(round, hearer, senders),
            OneOf::Second(part) => part.heard(round, hearer, senders),
            OneOf::Third(part) => part.heard(round, hearer, senders),
        }
    }

    fn clear_round(&self) -> u32 {
        match self {
            OneOf::First(part) => part.clear_round(),
            OneOf::Second(part) => part.clear_round(),
            OneOf::Third(part) => part.clear_round(),
        }
    }
}

impl<X: Detector, Y: Detector, Z: Detector> Detector for OneOf<X, Y, Z> {
    ghost meaning = { chosen X.Detector.meaning Y.Detector.meaning Z.Detector.meaning };

    ghost keeps = { elim [
      | First x ↦ X.Detector.keeps x
      | Second y ↦ Y.Detector.keeps y
      | Third z ↦ Z.Detector.keeps z
    ] };

    fn alarms(&self, round: u32, head: usize, c: u32, t: u32) -> bool {
        match self {
            OneOf::First(part) => part.alarms(round, head, c, t),
            OneOf::Second(part) => part.alarms(round, head, c, t),
            OneOf::Third(part) => part.alarms(round, head, c, t),
        }
    }

    fn class(&self) -> Class {
        match self {
            OneOf::First(part) => part.class(),
            OneOf::Second(part) => part.class(),
            OneOf::Third(part) => part.class(),
        }
    }

    fn quiet_round(&self) -> u32 {
        match self {
            OneOf::First(part) => part.quiet_round(),
            OneOf::Second(part) => part.quiet_round(),
            OneOf::Third(part) => part.quiet_round(),
        }
    }
}
