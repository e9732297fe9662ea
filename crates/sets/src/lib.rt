#![tactic(auto)]
// Sets of heads: head i is in a set where bit i of its 64-bit word is 1.
// Kept: plain words, since they stand as such in the signatures of all public calls and in files.
ghost use Rattle.std.specs.Prelude.{◌≡◌, ℕ, ◌+◌, ◌-◌, ◌<◌, ◌≤◌, Bool, true, false, not, ◌&&◌, ◌||◌, ◌==◌, nat_eq};
ghost use Rattle.sets.specs.Sets.{bit, count, word_of, lowest_from};
ghost use Rattle.sets.specs.Members.{Gives};
ghost use Rattle.std.specs.Iterator.{at_most};

pub mod walk;

use walk::Members;

// Whether head i is in the set; a number past 63 is in none.
pub fn has(set: u64, i: usize) -> bool
    ensures { result ≡ bit set i }
{
    i < 64 && (set >> i) & 1 == 1
}

// How many heads the set has.
pub fn size(set: u64) -> u32
    ensures value { result ≡ count 64 (bit set) }
    ensures few { result ≤ 64 }
{
    set.count_ones()
}

// The heads that are in both sets.
pub fn shared(a: u64, b: u64) -> u64
    ensures { result ≡ word_of 64 (λ i. bit a i && bit b i) }
{
    a & b
}

// The heads of the first set that are not in the second.
pub fn without(a: u64, b: u64) -> u64
    ensures { result ≡ word_of 64 (λ i. bit a i && not (bit b i)) }
{
    a & !b
}

// The heads that are in one of the sets.
pub fn joined(a: u64, b: u64) -> u64
    ensures { result ≡ word_of 64 (λ i. bit a i || bit b i) }
{
    a | b
}

// Head i alone; no head where the number is past 63.
pub fn one(i: usize) -> u64
    ensures { result ≡ word_of 64 (λ j. nat_eq j i) }
{
    if i < 64 { 1 << i } else { 0 }
}

// Head i alone, if it is in the set.
pub fn only(set: u64, i: usize) -> u64
    ensures { result ≡ word_of 64 (λ j. bit set j && j == i) }
{
    if i < 64 { set & (1 << i) } else { 0 }
}

// The lowest head of the set from head i on, or none.
pub fn next(set: u64, i: usize) -> Option<usize>
    ensures { result ≡ lowest_from (bit set) i (64 - i) }
{
    if i >= 64 {
        return None;
    }
    let skipped = (set >> i).trailing_zeros() as usize;
    if i + skipped < 64 {
        Some(i + skipped)
    } else {
        None
    }
}

// The heads of the set, from the lowest on.
pub fn members(set: u64) -> Members
    ensures set { result.set ≡ set }
    ensures from { result.from ≡ 0 }
{
    Members { set, from: 0 }
}

impl Iterator for Members {
    type Item = usize;

    ghost next_gives = { Gives };

    ghost remaining = { λ s. at_most (64 - s.from) };

    fn next(&mut self) -> Option<usize> {
        let i = next(self.set, self.from)?;
        self.from = i + 1;
        Some(i)
    }
}
