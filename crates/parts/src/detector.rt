// The collision detector: when a head is alarmed.
ghost use Rattle.std.specs.Prelude.{◌≡◌};
ghost use Rattle.parts.specs.Detectors.{Meaning, Keeps};

use heads::alarms::Class;

pub trait Detector {
    ghost meaning: { Self → Meaning };

    // Whether the head is alarmed that heard t of c messages.
    // Kept: each detector tests the range itself, as each channel does, for the reason that is given there.
    // Kept: four numbers, as a meaning's sentences and rules speak of each alone; each rule would take a struct apart again.
    fn alarms(&self, round: u32, head: usize, c: u32, t: u32) -> bool
        ensures { result ≡ (meaning self.now).rule round head c t };

    // Which alarms it never leaves out.
    fn class(&self) -> Class
        ensures { result ≡ (meaning self.now).class };

    // The round from which on no alarm is false.
    fn quiet_round(&self) -> u32
        ensures { result ≡ (meaning self.now).quiet };

    ghost keeps: { (detector : Self) → Keeps (meaning detector) };
}
