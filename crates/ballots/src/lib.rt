#![tactic(auto)]
// Ballots, their order and their codes.
ghost use Rattle.std.specs.Prelude.{◌≡◌, ℕ, ◌≤◌, Bool, true, false};
ghost use Rattle.ballots.specs.Order.{Total, Coding};
ghost use Rattle.ballots.specs.Faults.{numbered};
ghost use Rattle.ballots.specs.Kinds.{from_code};

pub mod faults;
pub mod kinds;
pub mod recipe;
pub mod ticket;

use faults::BallotFault;

// A kind of ballot: which of two ballots comes first.
// Kept: an order of its own and not `Ord`, which would ask a site's kind for equality and three more laws.
pub trait Ballot: Copy {
    ghost earlier: { Self → Self → Bool };

    // Whether this ballot comes before the other.
    fn before(&self, other: &Self) -> bool
        ensures { result ≡ earlier self.now other.now };

    ghost total: { Total earlier };
}

// A ballot with a code of W bits, and the way back from its code.
pub trait Coded: Ballot {
    // The width.
    const W: u32;

    ghost W: { ℕ };

    ghost encoded: { Self → ℕ };

    ghost decoded: { ℕ → Self };

    fn code(&self) -> u16
        ensures { result ≡ encoded self.now };

    // The ballot of a code; of a number that is no ballot's code, some ballot.
    fn from_code(code: u16) -> Self
        ensures { result ≡ decoded code };

    ghost coding: { Coding W encoded decoded };
}

// The ballot that has the code, or a refusal where none has it.
pub fn decode<B: Coded>(code: u16) -> Result<B, BallotFault>
    ensures { result ≡ from_code B.encoded B.decoded code }
{
    let ballot = B::from_code(code);
    if ballot.code() == code {
        Ok(ballot)
    } else {
        Err(BallotFault::BeyondRange)
    }
}
