// Where the meanings of the parts bind.
ghost use Rattle.std.specs.Prelude.{◌≡◌};
ghost use Rattle.parts.specs.Ranges.{in_time, at_head, counted, tellable};

// Whether the round is one of the 10,000 that a vote may hear.
pub fn in_time(round: u32) -> bool
    ensures { result ≡ in_time round }
{
    1 <= round && round <= 10000
}

// Whether the round and the head are in range.
pub fn at_head(round: u32, head: usize) -> bool
    ensures { result ≡ at_head round head }
{
    in_time(round) && head < 64
}

// Whether the round, the head and the counts are in range.
pub fn is_counted(round: u32, head: usize, c: u32, t: u32) -> bool
    ensures { result ≡ counted round head c t }
{
    at_head(round, head) && t <= c && c <= 64
}

// Whether a contention manager can be told of the round.
pub fn is_tellable(round: u32, c: u32) -> bool
    ensures { result ≡ tellable round c }
{
    in_time(round) && c <= 64
}
