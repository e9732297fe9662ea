// The least ballot heard, for every kind of ballot by its order's laws alone.
ghost use Rattle.std.specs.Prelude.{◌≡◌, Some, None, Decides};
ghost use Rattle.heads.specs.Heard.{joined, ballots_of, IsLeast, TwoHeard};

use crate::head::{Ballots, Head};
use ballots::Ballot;

// The ballots heard so far and one more.
fn join<B: Ballot>(so_far: Ballots<B>, ballot: B) -> Ballots<B>
    ensures { result ≡ joined B.earlier so_far (Some ballot) }
{
    match so_far.least {
        None => Ballots {
            least: Some(ballot),
            differ: so_far.differ,
        },
        Some(least) => {
            if ballot.before(&least) {
                Ballots {
                    least: Some(ballot),
                    differ: true,
                }
            } else {
                Ballots {
                    least: Some(least),
                    differ: so_far.differ || least.before(&ballot),
                }
            }
        }
    }
}

// The estimates of the heads in the hear word: the least of them, and whether two differ.
pub fn ballots_heard<B: Ballot>(heads: &[Head<B>], word: u64) -> Ballots<B>
    ensures value { result ≡ ballots_of B.earlier heads.now word }
    ensures least { IsLeast B.earlier heads.now word 64 result.least }
    ensures differ { Decides result.differ (TwoHeard heads.now word 64) }
{
    let mut heard = Ballots::none();
    for i in sets::members(word) {
        let Some(head) = heads.get(i) else {
            break;
        };
        heard = join(heard, head.estimate);
    }
    heard
}
