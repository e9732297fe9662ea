// The split vote: steps of two rounds, each of which adds one bit to a prefix of code bits.
ghost use Rattle.std.specs.Prelude.{◌≡◌, if◌then◌else◌};
ghost use Rattle.heads.specs.Rules.{begins, grown, says, keeps};
ghost use Rattle.heads.specs.Rules.Scheme.{split};

use crate::alarms::Class;
use crate::head::{Head, Heard, Prefix, State};
use crate::method::Method;
use ballots::Coded;

#[derive(Clone, Copy)]
pub struct Split;

// Whether the ballot's code begins with the prefix and the bit.
fn starts_with<B: Coded>(ballot: B, prefix: Prefix, bit: bool) -> bool
    ensures { result ≡ begins B.W (B.encoded ballot) prefix.bits prefix.length (if bit then 1 else 0) }
{
    let shift = (B::W - 1).saturating_sub(prefix.length as u32);
    (ballot.code() as u32) >> shift == 2 * prefix.bits as u32 + bit as u32
}

// The head with one bit more in its prefix, which is decided once it has W bits.
fn grow<B: Coded>(head: Head<B>, bit: bool) -> Head<B>
    ensures { result ≡ grown B.W B.decoded head (if bit then 1 else 0) }
{
    let bits = ((2 * head.prefix.bits as u32 + bit as u32) % (1 << B::W)) as u16;
    if head.prefix.length as u32 + 1 >= B::W {
        return Head {
            state: State::Decided,
            estimate: B::from_code(bits),
            noise: false,
            ..head
        };
    }
    Head {
        prefix: Prefix {
            bits,
            length: head.prefix.length + 1,
        },
        noise: false,
        ..head
    }
}

impl<B: Coded> Method<B> for Split {
    ghost scheme = { split B.Coded.W B.Coded.encoded B.Coded.decoded };

    fn of_ballots(self, round: u32) -> bool {
        false
    }

    fn class(self) -> Class {
        Class::Zero
    }

    fn strict(self) -> bool {
        true
    }

    fn says(self, round: u32, turn: bool, head: Head<B>) -> bool
        ensures { result ≡ says (split B.Coded.W B.Coded.encoded B.Coded.decoded) round turn head }
    {
        starts_with(head.first, head.prefix, round % 2 != 1)
    }

    fn keeps(self, round: u32, heard: Heard<B>, head: Head<B>) -> Head<B>
        ensures { result ≡ keeps (split B.Coded.W B.Coded.encoded B.Coded.decoded) round heard head }
    {
        if round % 2 == 1 {
            Head {
                noise: heard.is_noisy(),
                ..head
            }
        } else if head.noise {
            grow(head, false)
        } else if heard.is_noisy() {
            grow(head, true)
        } else {
            Head {
                prefix: Prefix::default(),
                noise: false,
                ..head
            }
        }
    }
}
