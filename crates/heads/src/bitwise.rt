// The bit vote: cycles of a round of ballots, a round for each code bit, and a round of vetoes.
ghost use Rattle.std.specs.Prelude.{◌≡◌};
ghost use Rattle.heads.specs.Rules.{place_of, code_bit, says, keeps};
ghost use Rattle.heads.specs.Rules.Scheme.{bitwise};

use crate::alarms::Class;
use crate::head::{Head, Heard};
use crate::method::Method;
use ballots::Coded;

#[derive(Clone, Copy)]
pub struct Bitwise;

// What a round of a cycle is for.
#[derive(Clone, Copy)]
enum Place {
    Ballots,
    // that bit of the code, counted from 1, the highest first
    Bit(u32),
    Vetoes,
}

// What the round is for. Without the hint a bit vote took a tenth longer.
#[inline(always)]
fn place_of<B: Coded>(round: u32) -> Place
    ensures { result ≡ place_of B.W round }
{
    match round.saturating_sub(1) % (B::W + 2) {
        0 => Place::Ballots,
        p if p <= B::W => Place::Bit(p),
        _ => Place::Vetoes,
    }
}

// Bit p of the ballot's code, counted from 1, the highest first.
fn code_bit<B: Coded>(ballot: B, p: u32) -> bool
    ensures { result ≡ code_bit B.W (B.encoded ballot) p }
{
    sets::has(ballot.code() as u64, B::W.saturating_sub(p) as usize)
}

impl<B: Coded> Method<B> for Bitwise {
    ghost scheme = { bitwise B.Coded.W B.Coded.encoded };

    fn of_ballots(self, round: u32) -> bool {
        matches!(place_of::<B>(round), Place::Ballots)
    }

    fn class(self) -> Class {
        Class::Zero
    }

    fn strict(self) -> bool {
        false
    }

    fn says(self, round: u32, turn: bool, head: Head<B>) -> bool
        ensures { result ≡ says (bitwise B.Coded.W B.Coded.encoded) round turn head }
    {
        match place_of::<B>(round) {
            Place::Ballots => turn,
            Place::Bit(p) => code_bit(head.estimate, p),
            Place::Vetoes => !head.flag,
        }
    }

    fn keeps(self, round: u32, heard: Heard<B>, head: Head<B>) -> Head<B>
        ensures { result ≡ keeps (bitwise B.Coded.W B.Coded.encoded) round heard head }
    {
        match place_of::<B>(round) {
            Place::Ballots => head.moved(true, heard),
            Place::Bit(p) if heard.is_noisy() && !code_bit(head.estimate, p) => Head {
                flag: false,
                ..head
            },
            Place::Vetoes if !heard.is_noisy() => head.decided(),
            _ => head,
        }
    }
}
