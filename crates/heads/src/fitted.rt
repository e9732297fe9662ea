// What a driven vote has beside its rules: codes that its rules can be carried out with.
ghost use Rattle.heads.specs.Rules.{Fit};

use crate::bitwise::Bitwise;
use crate::method::Method;
use crate::short::Short;
use crate::split::Split;
use ballots::{Ballot, Coded};

// One of the votes, over ballots B; one on codes has codes below 2^W that lead back to their ballots.
pub trait Fitted<B>: Method<B> {
    ghost fit: { Fit Self.scheme };
}

impl<B: Ballot> Fitted<B> for Short {
    ghost fit = { tt };
}

impl<B: Coded> Fitted<B> for Bitwise {
    ghost fit = { (B.decoded, B.coding) };
}

impl<B: Coded> Fitted<B> for Split {
    ghost fit = { B.coding };
}
