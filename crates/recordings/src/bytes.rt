// Numbers in a file, low byte first.
ghost use Rattle.std.specs.Prelude.{◌≡◌, ℕ, ◌+◌, ◌*◌, ◌≤◌, map, length};
ghost use Rattle.std.specs.List.{range_with_len};
ghost use Rattle.recordings.specs.Bytes.{number, words_at, marked};

// Whether the record at a place starts with those two bytes.
pub(crate) fn is_marked(bytes: &[u8], at: usize, first: u8, second: u8) -> bool
    requires { at + 2 ≤ length bytes.now }
    ensures { result ≡ marked first second bytes.now at }
{
    bytes[at..].starts_with(&[first, second])
}

// Kept: byte by byte, here and below. first_chunk answers an Option, which holds one each time.
pub(crate) fn read_u16(bytes: &[u8], at: usize) -> u16
    requires { at + 2 ≤ length bytes.now }
    ensures { result ≡ number 2 bytes.now at }
{
    u16::from_le_bytes([bytes[at], bytes[at + 1]])
}

pub(crate) fn read_u64(bytes: &[u8], at: usize) -> u64
    requires { at + 8 ≤ length bytes.now }
    ensures { result ≡ number 8 bytes.now at }
{
    u64::from_le_bytes([
        bytes[at],
        bytes[at + 1],
        bytes[at + 2],
        bytes[at + 3],
        bytes[at + 4],
        bytes[at + 5],
        bytes[at + 6],
        bytes[at + 7],
    ])
}

// Fills the words from the bytes at a place.
// Kept: by place, and not by chunks of eight, as the definition reads them.
pub(crate) fn read_words(bytes: &[u8], at: usize, words: &mut [u64])
    requires { (at + 8 * length words.old ≤ length bytes.now) × (length words.old ≤ 64) }
    ensures { words.new ≡ words_at bytes.now at (length words.old) }
{
    for (i, word) in words.iter_mut().enumerate() {
        *word = read_u64(bytes, at + 8 * i);
    }
}
