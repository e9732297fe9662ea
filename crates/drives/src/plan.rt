// What the table says of one vote.
ghost use Rattle.std.specs.Prelude.{◌≡◌};
ghost use Rattle.drives.specs.Kinds.{manager_in};

use crate::fields::{Fields, Malformed};
use heads::alarms::Class;
use recordings::kinds::{BallotKind, VoteKind};

#[derive(Clone, Copy, Debug, PartialEq, Eq)]
pub enum ManagerKind {
    Lowest,
    Rotation,
    Everyone,
}

impl TryFrom<u8> for ManagerKind {
    type Error = Malformed;

    ghost try_from_gives = { λ number r. r ≡ manager_in number };

    fn try_from(number: u8) -> Result<ManagerKind, Malformed> {
        match number {
            1 => Ok(ManagerKind::Lowest),
            2 => Ok(ManagerKind::Rotation),
            3 => Ok(ManagerKind::Everyone),
            _ => Err(Malformed),
        }
    }
}

// The first and the last round of a spell.
pub type Pair = [u64; 2];

// The layers over a part, the upper one first.
#[derive(Clone, Copy)]
pub enum Layers<S> {
    None,
    One(S),
    Two(S, S),
}

impl<S: Copy> Layers<S> {
    // As many layers, each made of the one in its place.
    pub(crate) fn try_map<T, E, F: Fn(S) -> Result<T, E>>(self, f: F) -> Result<Layers<T>, E>
    where
        T: Drop,
        F: Drop,
        requires { F.IsAlwaysCallable f }
    {
        match self {
            Layers::None => Ok(Layers::None),
            Layers::One(only) => Ok(Layers::One(f(only)?)),
            Layers::Two(upper, lower) => Ok(Layers::Two(f(upper)?, f(lower)?)),
        }
    }

    // The upper layer and the lower one, with the filler in the place of one that is not there.
    pub(crate) fn filled_up(self, filler: S) -> (S, S) {
        match self {
            Layers::None => (filler, filler),
            Layers::One(only) => (only, filler),
            Layers::Two(upper, lower) => (upper, lower),
        }
    }
}

impl<'a> Layers<&'a [Pair]> {
    fn read(fields: &mut Fields<'a>) -> Result<Layers<&'a [Pair]>, Malformed> {
        match fields.number()? {
            0 => Ok(Layers::None),
            1 => Ok(Layers::One(fields.arrays()?)),
            2 => Ok(Layers::Two(fields.arrays()?, fields.arrays()?)),
            _ => Err(Malformed),
        }
    }
}

#[derive(Clone, Copy)]
pub enum ChannelKind<'a> {
    Clear,
    Capture(&'a [u64]),
    Recorded { n: u64, words: &'a [u64] },
}

impl<'a> ChannelKind<'a> {
    fn read(fields: &mut Fields<'a>) -> Result<ChannelKind<'a>, Malformed> {
        match fields.number()? {
            1 => Ok(ChannelKind::Clear),
            2 => Ok(ChannelKind::Capture(fields.numbers()?)),
            3 => Ok(ChannelKind::Recorded {
                n: fields.number()?,
                words: fields.numbers()?,
            }),
            _ => Err(Malformed),
        }
    }
}

#[derive(Clone, Copy)]
pub enum DetectorKind<'a> {
    Counting,
    Squelch,
    Recorded { class: Class, words: &'a [u64] },
}

impl<'a> DetectorKind<'a> {
    fn read(fields: &mut Fields<'a>) -> Result<DetectorKind<'a>, Malformed> {
        match fields.number()? {
            1 => Ok(DetectorKind::Counting),
            2 => Ok(DetectorKind::Squelch),
            3 => Ok(DetectorKind::Recorded {
                class: Class::Zero,
                words: fields.numbers()?,
            }),
            4 => Ok(DetectorKind::Recorded {
                class: Class::Majority,
                words: fields.numbers()?,
            }),
            _ => Err(Malformed),
        }
    }
}

// The heads that stop in a round, and how many records and words its driving is handed.
#[derive(Clone, Copy)]
pub struct Setting {
    pub stops: u64,
    pub records: u64,
    pub words: u64,
}

#[derive(Clone, Copy)]
pub struct Plan<'a> {
    pub vote: VoteKind,
    pub kind: BallotKind,
    pub codes: &'a [u64],
    pub dead: Layers<&'a [Pair]>,
    pub channel: ChannelKind<'a>,
    pub disturbed: Layers<&'a [Pair]>,
    pub detector: DetectorKind<'a>,
    pub manager: ManagerKind,
    pub drivings: u64,
    // the rounds with a setting of their own: the round, the heads that stop, the records and the words
    settings: &'a [[u64; 4]],
}

impl<'a> Plan<'a> {
    // The next vote of the table.
    fn read(fields: &mut Fields<'a>) -> Result<Plan<'a>, Malformed> {
        Ok(Plan {
            vote: fields.kind()?,
            kind: fields.kind()?,
            codes: fields.numbers()?,
            dead: Layers::read(fields)?,
            channel: ChannelKind::read(fields)?,
            disturbed: Layers::read(fields)?,
            detector: DetectorKind::read(fields)?,
            manager: fields.kind()?,
            drivings: fields.number()?,
            settings: fields.arrays()?,
        })
    }

    // The setting of a round: nobody stops, and there is a record and a word for each head, unless the table says more.
    pub(crate) fn setting(&self, round: u64) -> Setting {
        let n = self.codes.len() as u64;
        let [_, stops, records, words] = self
            .settings
            .iter()
            .find(|setting| setting[0] == round)
            .copied()
            .unwrap_or([round, 0, n, n]);
        Setting {
            stops,
            records,
            words,
        }
    }
}

// The plans of the table, one after the other.
#[derive(Drop)]
pub struct Plans<'a> {
    pub left: Fields<'a>,
}

impl<'a> Iterator for Plans<'a> {
    type Item = Result<Plan<'a>, Malformed>;

    fn next(&mut self) -> Option<Result<Plan<'a>, Malformed>> {
        if self.left.is_empty() {
            None
        } else {
            Some(Plan::read(&mut self.left))
        }
    }
}
