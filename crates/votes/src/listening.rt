// The ballots heard, by way of the least ballot of all that were sent, which most heads hear.
ghost use Rattle.std.specs.Prelude.{◌≡◌, true, not, ◌&&◌, IfSome};
ghost use Rattle.sets.specs.Sets.{bit};
ghost use Rattle.heads.specs.Heard.{ballots_of};
ghost use Rattle.votes.specs.Leaders.{alike, having, Leads, LeadsIn, Led};

use crate::enrolled::Enrolled;
use crate::leaders::Leaders;
use crate::tables::places;
use ballots::Ballot;
use heads::ballots_heard::ballots_heard;
use heads::head::{Ballots, Head};

// Whether neither ballot comes before the other.
// Kept: a kind of ballot is known by its order alone, which has no `==`.
fn same_ballot<B: Ballot>(a: B, b: B) -> bool
    ensures { result ≡ alike B.earlier a b }
{
    !a.before(&b) && !b.before(&a)
}

impl<'a, B: Ballot> Enrolled<'a, B> {
    // The senders that have the ballot.
    fn with_ballot(&self, senders: u64, ballot: B) -> u64
        ensures { result ≡ having B.earlier self.now.table.now self.now.n senders ballot }
    {
        places(
            self.heads(),
            |i, h|
                ensures { result ≡ bit senders i && alike B.earlier h.estimate ballot }
            { sets::has(senders, i) && same_ballot(h.estimate, ballot) },
        )
    }

    // The senders by whether they have the least ballot that was sent; none where no ballot was, or a sender has no record.
    pub(crate) fn leaders(&self, senders: u64) -> Option<Leaders<B>>
        ensures { IfSome result (λ l. Leads B.earlier self.now.table.now self.now.n senders l) }
    {
        if sets::next(senders, self.n).is_some() {
            return None;
        }
        let least = ballots_heard(self.table, senders).least?;
        let leaders = self.with_ballot(senders, least);
        let others = sets::without(senders, leaders);
        Some(Leaders {
            least,
            leaders,
            others,
        })
    }
}

// Whether a hear word has leaders and others alone, and at least one leader.
fn is_led(word: u64, leaders: u64, others: u64) -> bool
    ensures { result ≡ true → Led word leaders others }
{
    sets::without(sets::without(word, leaders), others) == 0 && sets::shared(word, leaders) != 0
}

// The ballots heard with a hear word; a head that hears a leader hears the least ballot of all.
fn heard_by<B: Ballot>(table: &[Head<B>], leaders: Option<Leaders<B>>, word: u64) -> Ballots<B>
    requires { IfSome leaders (λ l. LeadsIn B.earlier table.now l) }
    ensures { result ≡ ballots_of B.earlier table.now word }
{
    if let Some(l) = leaders {
        if is_led(word, l.leaders, l.others) {
            return Ballots {
                least: Some(l.least),
                differ: sets::shared(word, l.others) != 0,
            };
        }
    }
    ballots_heard(table, word)
}

// The ballots heard with a hear word, where those heard with the last one are known; often the two are the same.
pub(crate) fn heard_again<B: Ballot>(
    table: &[Head<B>],
    leaders: Option<Leaders<B>>,
    word: u64,
    last: u64,
    ballots: Ballots<B>,
) -> Ballots<B>
    requires leaders { IfSome leaders (λ l. LeadsIn B.earlier table.now l) }
    requires last { ballots ≡ ballots_of B.earlier table.now last }
    ensures { result ≡ ballots_of B.earlier table.now word }
{
    if word == last {
        ballots
    } else {
        heard_by(table, leaders, word)
    }
}
