// Finding the head that has the turn.
ghost use Rattle.std.specs.Prelude.{◌≡◌};
ghost use Rattle.managers.specs.Turns.{turn_of, lowest_of, next_of};

// The turn of the head that was found; nobody's where none was.
pub(crate) fn turn_of(head: Option<usize>) -> u64
    ensures { result ≡ turn_of head }
{
    head.map_or(0, sets::one)
}

// The lowest running head.
pub(crate) fn lowest_of(running: u64) -> Option<usize>
    ensures { result ≡ lowest_of running }
{
    sets::next(running, 0)
}

// The first running head from the start upward, and then from 0.
pub(crate) fn next_of(running: u64, start: usize) -> Option<usize>
    ensures { result ≡ next_of running start }
{
    sets::next(running, start).or_else(|| lowest_of(running))
}
