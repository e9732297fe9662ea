// The numbers of the table, taken from the front one after the other.
ghost use Rattle.std.specs.Prelude.{◌≡◌, ◌<◌, ◌∷◌, [], length, ◌==◌, MatchResult};

use std::alloc::Global;
use std::error::Error;
use std::fmt;

// That the table ends early, or has a number that stands for nothing.
#[derive(Clone, Copy, Debug)]
pub struct Malformed;

impl fmt::Display for Malformed {
    fn fmt<W: fmt::Write>(&self, f: &mut fmt::Formatter<W>) -> fmt::Result {
        write!(f, "the table of the votes is malformed")
    }
}

impl Error for Malformed {}

// The numbers of a text, with blanks or line ends between them.
pub(crate) fn numbers_of(heap: Global, text: &str) -> anyhow::Result<Vec<u64>> {
    let mut numbers = Vec::new(heap);
    for word in text.split_ascii_whitespace() {
        numbers.push(word.parse::<u64>()?)?;
    }
    Ok(numbers)
}

// What is left of the table.
#[derive(Drop)]
pub struct Fields<'a> {
    left: &'a [u64],
}

impl<'a> Fields<'a> {
    pub(crate) fn new(numbers: &'a [u64]) -> Fields<'a>
        ensures { result.left.now ≡ numbers.now }
    {
        Fields { left: numbers }
    }

    pub(crate) fn is_empty(&self) -> bool
        ensures { result ≡ (length self.now.left.now == 0) }
    {
        self.left.is_empty()
    }

    // The next number.
    pub(crate) fn number(&mut self) -> Result<u64, Malformed>
        ensures { MatchResult result (λ n. self.old.left.now ≡ n ∷ self.new.left.now) (λ _. self.old.left.now ≡ []) }
    {
        let (first, rest) = self.left.split_first().ok_or(Malformed)?;
        self.left = rest;
        Ok(*first)
    }

    // The next number, as what it stands for.
    pub(crate) fn kind<K: TryFrom<u8> + Drop>(&mut self) -> Result<K, Malformed>
    where
        K::Error: Drop,
    {
        let number = u8::try_from(self.number()?).map_err(|_| Malformed)?;
        K::try_from(number).map_err(|_| Malformed)
    }

    // A number of numbers, and then these.
    pub(crate) fn numbers(&mut self) -> Result<&'a [u64], Malformed> {
        self.front(1)
    }

    // A number of arrays, and then these, of N numbers each.
    pub(crate) fn arrays<const N: usize>(&mut self) -> Result<&'a [[u64; N]], Malformed>
        requires { 0 < N }
    {
        Ok(self.front(N as u64)?.as_chunks().0)
    }

    // A number of groups, and then the numbers of these groups, so many each.
    fn front(&mut self, size: u64) -> Result<&'a [u64], Malformed> {
        let length = self.number()?.saturating_mul(size) as usize;
        let (front, rest) = self.left.split_at_checked(length).ok_or(Malformed)?;
        self.left = rest;
        Ok(front)
    }
}
