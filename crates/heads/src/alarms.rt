// Due alarms, by the class of the collision detector that a vote asks for.
ghost use Rattle.std.specs.Prelude.{◌≡◌};
ghost use Rattle.heads.specs.Alarms.{due_by};

// Which alarms a collision detector never leaves out.
#[derive(Clone, Copy, Debug, PartialEq, Eq)]
pub enum Class {
    // those where none of the messages was heard
    Zero,
    // also those where half of the messages or fewer were heard
    Majority,
}

impl Class {
    // Whether an alarm is due at a head that heard t of c messages.
    pub fn due(self, c: u32, t: u32) -> bool
        ensures { result ≡ due_by self c t }
    {
        match self {
            Class::Zero => c > 0 && t == 0,
            Class::Majority => c > 0 && t <= c / 2,
        }
    }
}
