// Recorded words: the one way in which recorded parts read their list.
ghost use Rattle.std.specs.Prelude.{◌≡◌, ℕ, List, length, slice_index};

// A list of 64-bit words.
// Kept: a trait and not a slice, since a caller may keep its list elsewhere.
pub trait Words: Copy {
    ghost listed: { Self → List ℕ };

    fn count(&self) -> usize
        ensures { result ≡ length (listed self.now) };

    // Word i of the list; 0 past its end.
    fn word(&self, i: usize) -> u64
        ensures { result ≡ slice_index (listed self.now) i };
}

// Words that the caller keeps in a slice.
#[derive(Clone, Copy)]
pub struct WordSlice<'a> {
    pub words: &'a [u64],
}

impl<'a> Words for WordSlice<'a> {
    ghost listed = { λ s. s.words.now };

    fn count(&self) -> usize {
        self.words.len()
    }

    fn word(&self, i: usize) -> u64 {
        self.words.get(i).copied().unwrap_or(0)
    }
}
