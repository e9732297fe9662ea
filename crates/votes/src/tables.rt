// What is read of the table: sets of heads, and how one head stands.
ghost use Rattle.std.specs.Prelude.{◌≡◌, ℕ, ◌^◌, ◌<◌, ◌≤◌, ◌&&◌, length, take, Some};
ghost use Rattle.std.specs.List.{slice_get};
ghost use Rattle.sets.specs.Sets.{bit, lowest};
ghost use Rattle.sets.specs.Search.{first};
ghost use Rattle.heads.specs.Rules.{says};
ghost use Rattle.heads.specs.declared.head.Head.{Head};
ghost use Rattle.heads.specs.declared.head.State.TheVariants.{Running};
ghost use Rattle.votes.specs.Tables.{same_state, in_state, lowest_idle};
ghost use Rattle.votes.specs.Rounds.{senders, Counted};
ghost use Rattle.votes.specs.Calls.{EnrolledIn, ballot_of, standing_of, standing_at};

use crate::enrolled::Enrolled;
use crate::faults::VoteFault;
use crate::stages::Standing;
use heads::head::{Head, State};
use heads::method::Method;

// The lowest head of the set that does not run.
pub fn lowest_idle(set: u64, running: u64) -> Option<usize>
    ensures { result ≡ lowest_idle set running }
{
    sets::next(sets::without(set, running), 0)
}

// How many heads a set of senders has is how many heads of the table send.
pub fn senders_are_counted<B>()
    ensures { Counted B }
{}

// The ballot that a head has decided, if it has.
fn decided<B: Copy>(h: &Head<B>) -> Option<B>
    ensures { result ≡ ballot_of (Some h.now) }
{
    match h.state {
        State::Decided => Some(h.estimate),
        State::Running | State::Stopped => None,
    }
}

// How a head stands.
// Kept: a `From` would be public, where only `Vote::state` is to tell how a head stands.
fn standing<B: Copy>(h: &Head<B>) -> Standing<B>
    ensures { result ≡ standing_of (Some h.now) }
{
    match h.state {
        State::Running => Standing::Running,
        State::Decided => Standing::Decided(h.estimate),
        State::Stopped => Standing::Stopped,
    }
}

// Whether a head runs and sends.
fn sends<B: Copy, V: Method<B>>(method: V, round: u32, turn: bool, h: &Head<B>) -> bool
    ensures { result ≡ same_state h.now.state Running && says V.Method.scheme round turn h.now }
{
    h.state == State::Running && method.says(round, turn, *h)
}

// The ballot of the first head that has decided.
fn first_decided<B: Copy>(heads: &[Head<B>]) -> Option<B>
    ensures { result ≡ first (λ i. ballot_of (slice_get heads.now i)) (length heads.now) }
{
    // Kept: tried `find_map`: that it answers for the first of the heads did not follow from its clauses.
    for h in heads {
        let found = decided(h);
        if found.is_some() {
            return found;
        }
    }
    None
}

// The places of a list at which the test holds, as a set.
pub(crate) fn places<B: Copy, F: Fn(usize, Head<B>) -> bool>(heads: &[Head<B>], test: F) -> u64
    requires call { F.IsAlwaysCallable test }
    requires few { length heads.now ≤ 64 }
    ensures below { result < 2 ^ length heads.now }
    ensures each { (i : ℕ) → (h : Head B) → slice_get heads.now i ≡ Some h → F.post test i h (bit result i) }
{
    let mut set = 0;
    for (i, h) in heads.iter().enumerate() {
        if test(i, *h) {
            set |= 1 << i;
        }
    }
    set
}

impl<'a, B: Copy> Enrolled<'a, B> {
    // The n heads enrolled in the table, or a refusal where it is shorter.
    pub(crate) fn of(table: &'a [Head<B>], n: usize) -> Result<Enrolled<'a, B>, VoteFault>
        requires { n ≤ 64 }
        ensures { EnrolledIn result table.now n }
    {
        if table.len() < n {
            return Err(VoteFault::ShortTable);
        }
        Ok(Enrolled { table, n })
    }

    // The records of the enrolled heads.
    pub(crate) fn heads(&self) -> &'a [Head<B>]
        ensures { result.now ≡ take self.now.n self.now.table.now }
    {
        &self.table[..self.n]
    }

    // The heads that are in that state.
    pub(crate) fn in_state(&self, state: State) -> u64
        ensures { result ≡ in_state state self.now.table.now self.now.n }
    {
        places(
            self.heads(),
            |_, h|
                ensures { result ≡ same_state h.state state }
            { h.state == state },
        )
    }

    // The running heads that send.
    pub(crate) fn senders<V: Method<B>>(&self, method: V, round: u32, turns: u64) -> u64
        ensures { result ≡ senders V.Method.scheme round self.now.table.now self.now.n turns }
    {
        places(
            self.heads(),
            |i, h|
                ensures { result ≡ same_state h.state Running && says V.Method.scheme round (bit turns i) h }
            { sends(method, round, sets::has(turns, i), &h) },
        )
    }

    // The ballot of the lowest head that has decided.
    pub(crate) fn lowest_decided(&self) -> Option<B>
        ensures { result ≡ first (λ i. ballot_of (slice_get self.now.table.now i)) self.now.n }
    {
        first_decided(self.heads())
    }

    // How head i of the first n stands.
    pub(crate) fn standing(&self, i: usize) -> Standing<B>
        ensures { result ≡ standing_at self.now.table.now self.now.n i }
    {
        match self.heads().get(i) {
            Some(h) => standing(h),
            None => Standing::NoSuchHead,
        }
    }
}
