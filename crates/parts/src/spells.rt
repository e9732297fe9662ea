// Spells: rounds in which a layer has its effect.
ghost use Rattle.std.specs.Prelude.{◌≡◌, ◌≤◌, ◌-◌, true, take, drop, replicate};
ghost use Rattle.std.specs.List.{list_all};
ghost use Rattle.parts.specs.Spans.{fits, blank};

// The rounds from first to last, both among them.
#[derive(Clone, Copy, Debug, PartialEq, Eq)]
pub struct Spell {
    pub first: u32,
    pub last: u32,
}

// Up to 16 spells.
// Kept: an array and a count, as no call of a part may allocate and spells are Copy, which an ArrayVec is not.
#[derive(Clone, Copy)]
pub struct Spells {
    pub(crate) list: [Spell; 16],
    pub(crate) count: usize,
    ghost few: { count ≤ 16 },
    ghost fit: { list_all fits (take count list) ≡ true },
    ghost rest: { drop count list ≡ replicate (16 - count) blank },
}

mod calls;
