// A walk over the heads of a set.
ghost use Rattle.std.specs.Prelude.{◌≤◌};

// The heads of a set from a number on, one after another.
#[derive(Clone, Copy)]
pub struct Members {
    pub(crate) set: u64,
    pub(crate) from: usize,
    ghost within: { from ≤ 64 },
}
