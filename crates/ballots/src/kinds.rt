// The two kinds of ballot in use.
ghost use Rattle.std.specs.Prelude.{◌≤◌};

// A number from 0 to 4095; the smaller comes first.
#[derive(Clone, Copy)]
pub struct Recipe {
    pub(crate) number: u16,
    ghost fits: { number ≤ 4095 },
}

// A grade from 0 to 15 and a tank from 0 to 63; the higher grade comes first, then the lower tank.
#[derive(Clone, Copy)]
pub struct Ticket {
    pub(crate) grade: u8,
    pub(crate) tank: u8,
    ghost fits: { (grade ≤ 15) × (tank ≤ 63) },
}
