// The enrolled heads: the first records of the caller's table.
ghost use Rattle.std.specs.Prelude.{◌≤◌, length};

use heads::head::Head;

// A table in which n heads are enrolled, at most 64. Records past them are the caller's own.
#[derive(Drop)]
pub(crate) struct Enrolled<'a, B> {
    pub(crate) table: &'a [Head<B>],
    // Kept: the definitions speak of a table and a number of heads, and so each method says no less with both.
    pub(crate) n: usize,
    ghost inside: { n ≤ length table.now },
    ghost few: { n ≤ 64 },
}
