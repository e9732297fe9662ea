// The course of one vote of the table.
use crate::equipment::{bare_channel, bare_detector, spells_of};
use crate::everyone::Everyone;
use crate::plan::{Layers, ManagerKind, Plan, Setting};
use ballots::Coded;
use ballots::kinds::{Recipe, Ticket};
use channels::dead::DeadSpells;
use detectors::interference::Interference;
use driving::{begin, drive};
use heads::bitwise::Bitwise;
use heads::fitted::Fitted;
use heads::head::Head;
use heads::method::Method;
use heads::short::Short;
use heads::split::Split;
use managers::lowest::Lowest;
use managers::rotation::Rotation;
use parts::channel::Channel;
use parts::detector::Detector;
use parts::faults::PartFault;
use parts::manager::Manager;
use parts::spells::Spells;
use recordings::kinds::{BallotKind, VoteKind};
use recordings::listing::Outcome;
use std::alloc::{AllocError, AllocFailed, Global};
use votes::faults::{Refusal, Refused, VoteFault};
use votes::refusals::ballot_of;
use votes::stages::{Figures, HeardRound, Roll, Standing, Vote};

// The rounds heard, and then how each head stands, or the refusal that ended the vote.
// Kept: no `Told`, whose ending is a fault of a file, with a byte.
#[derive(Drop)]
pub struct Course {
    pub rounds: Vec<Figures>,
    pub ending: Result<Vec<Outcome>, Refusal>,
}

// What ends a vote early: a refusal, or want of memory.
#[derive(Clone, Copy)]
enum Halt {
    Refused(Refusal),
    Memory(AllocError),
}

impl<T: Drop> From<AllocFailed<T>> for Halt {
    fn from(e: AllocFailed<T>) -> Halt {
        Halt::Memory(e.into())
    }
}

impl From<VoteFault> for Halt {
    fn from(e: VoteFault) -> Halt {
        Halt::Refused(e.refusal())
    }
}

impl From<PartFault> for Halt {
    fn from(_e: PartFault) -> Halt {
        Halt::Refused(Refusal::rule(17))
    }
}

impl<T: Drop> From<Refused<T>> for Halt {
    fn from(e: Refused<T>) -> Halt {
        // Kept: taken apart here, since what is handed back is let go by its own type.
        let Refused { back: _, fault } = e;
        Halt::Refused(fault.refusal())
    }
}

// How a head stands, with the code of the ballot that it decided.
// Kept: no `From`, since both types are other crates'.
fn outcome_of<B: Coded>(standing: Standing<B>) -> Outcome {
    match standing {
        Standing::Running => Outcome::Running,
        Standing::Decided(ballot) => Outcome::Decided(ballot.code()),
        Standing::Stopped | Standing::NoSuchHead => Outcome::Stopped,
    }
}

// A roll of a head for each code.
// Kept: no text shared with a file's heads, whose codes are read from bytes and refused by the file's own faults.
fn enroll_all<B: Coded>(codes: &[u64], table: &mut [Head<B>]) -> Result<Roll, Halt> {
    let mut roll = Roll::new();
    for code in codes {
        let code = u16::try_from(*code).unwrap_or(u16::MAX);
        roll = roll.enroll(table, ballot_of::<B>(code)?)?;
    }
    Ok(roll)
}

// Drives one round, with as many records and words as its setting says.
// Kept: here and below, a channel, a detector and a manager by themselves, as driving takes them.
fn drive_once<B: Coded, V: Method<B> + Drop, C: Channel, D: Detector, M: Manager>(
    vote: Vote<V>,
    table: &mut [Head<B>],
    setting: Setting,
    channel: &C,
    detector: &D,
    manager: &mut M,
) -> Result<HeardRound<V>, Refused<Vote<V>>> {
    let mut list = [0u64; 65];
    let records = setting.records.min(table.len() as u64) as usize;
    let words = setting.words.min(65) as usize;
    drive(
        vote,
        &mut table[..records],
        setting.stops,
        &mut list[..words],
        channel,
        detector,
        manager,
    )
}

// A plan that is followed, and the rounds that were heard so far.
#[derive(Drop)]
struct Followed<'a> {
    heap: Global,
    plan: &'a Plan<'a>,
    rounds: Vec<Figures>,
}

impl<'a> Followed<'a> {
    // Asks how each head stands.
    fn ask<B: Coded, V: Drop>(
        &self,
        vote: &Vote<V>,
        table: &[Head<B>],
    ) -> Result<Vec<Outcome>, Halt> {
        let mut heads = Vec::new(self.heap);
        // Kept: heads are asked by their numbers, and there is no list of them.
        for head in 0..vote.heads() {
            heads.push(outcome_of(vote.state(table, head)?))?;
        }
        Ok(heads)
    }

    // Drives the vote as often as the plan says.
    fn drive_on<B: Coded, V: Method<B> + Drop, C: Channel, D: Detector, M: Manager>(
        &mut self,
        start: Vote<V>,
        table: &mut [Head<B>],
        channel: &C,
        detector: &D,
        mut manager: M,
    ) -> Result<Vec<Outcome>, Halt>
    where
        M: Drop,
    {
        let mut vote = start;
        for round in 1..=self.plan.drivings {
            let setting = self.plan.setting(round);
            let HeardRound {
                vote: next,
                figures,
            } = drive_once(vote, table, setting, channel, detector, &mut manager)?;
            vote = next;
            self.rounds.push(figures)?;
        }
        self.ask(&vote, table)
    }

    // Drives the vote by the plan's contention manager.
    // Kept: a match, here and below, since each arm drives by another type; a `dyn` would carry no law.
    fn by_manager<B: Coded, V: Method<B> + Drop, C: Channel, D: Detector>(
        &mut self,
        vote: Vote<V>,
        table: &mut [Head<B>],
        channel: &C,
        detector: &D,
    ) -> Result<Vec<Outcome>, Halt> {
        match self.plan.manager {
            ManagerKind::Lowest => self.drive_on(vote, table, channel, detector, Lowest::new()),
            ManagerKind::Rotation => self.drive_on(vote, table, channel, detector, Rotation::new()),
            ManagerKind::Everyone => self.drive_on(vote, table, channel, detector, Everyone::new()),
        }
    }

    // Drives the vote by a channel and a detector, under as many layers as the one under more of them has: the other part
    // then has layers without spells.
    fn by_parts<B: Coded, V: Method<B> + Drop>(
        &mut self,
        vote: Vote<V>,
        table: &mut [Head<B>],
        dead: Layers<Spells>,
        noisy: Layers<Spells>,
    ) -> Result<Vec<Outcome>, Halt> {
        let channel = bare_channel(self.plan.channel)?;
        let detector = bare_detector(self.plan.detector)?;
        let none = Spells::new();
        let (dead_above, dead_below) = dead.filled_up(none);
        let (noisy_above, noisy_below) = noisy.filled_up(none);
        match (dead, noisy) {
            (Layers::None, Layers::None) => self.by_manager(vote, table, &channel, &detector),
            (Layers::Two(..), _) | (_, Layers::Two(..)) => {
                let channel = DeadSpells::new(dead_above, DeadSpells::new(dead_below, channel));
                let detector = Interference::new(
                    noisy_above,
                    Interference::new(noisy_below, detector),
                );
                self.by_manager(vote, table, &channel, &detector)
            }
            _ => {
                let channel = DeadSpells::new(dead_above, channel);
                let detector = Interference::new(noisy_above, detector);
                self.by_manager(vote, table, &channel, &detector)
            }
        }
    }

    // The vote by one method, from its roll on.
    fn by_method<B: Coded, V: Fitted<B> + Drop>(
        &mut self,
        method: V,
        table: &mut [Head<B>],
    ) -> Result<Vec<Outcome>, Halt> {
        let roll = enroll_all(self.plan.codes, table)?;
        let vote = begin::<B, V>(roll, method)?;
        let dead = self.plan.dead.try_map(spells_of)?;
        let noisy = self.plan.disturbed.try_map(spells_of)?;
        self.by_parts(vote, table, dead, noisy)
    }

    // The vote over one kind of ballot.
    fn by_kind<B: Coded>(&mut self, table: &mut [Head<B>]) -> Result<Vec<Outcome>, Halt> {
        match self.plan.vote {
            VoteKind::Short => self.by_method::<B, Short>(Short, table),
            VoteKind::Bit => self.by_method::<B, Bitwise>(Bitwise, table),
            VoteKind::Split => self.by_method::<B, Split>(Split, table),
        }
    }

    // The whole vote, on a table of 64 records, each of which is written over before it is read.
    fn vote(&mut self) -> Result<Vec<Outcome>, Halt> {
        match self.plan.kind {
            BallotKind::Recipe => self.by_kind(&mut [Head::new(Recipe::from_code(0)); 64]),
            BallotKind::Ticket => self.by_kind(&mut [Head::new(Ticket::from_code(0)); 64]),
        }
    }
}

// Enrolls the heads, begins the vote, makes the parts and drives, up to the first refusal.
pub(crate) fn follow(heap: Global, plan: &Plan<'_>) -> Result<Course, AllocError> {
    let mut followed = Followed {
        heap,
        plan,
        rounds: Vec::new(heap),
    };
    let ending = match followed.vote() {
        Ok(heads) => Ok(heads),
        Err(Halt::Refused(refusal)) => Err(refusal),
        Err(Halt::Memory(e)) => return Err(e),
    };
    Ok(Course {
        rounds: followed.rounds,
        ending,
    })
}
