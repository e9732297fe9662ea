// Making spells, and asking them.
ghost use Rattle.std.specs.Prelude.{◌≡◌, []};
ghost use Rattle.parts.specs.Spans.{fits};
ghost use Rattle.parts.specs.Spells.{listed, added, added_to, spans_at, spanned, past};

use crate::faults::PartFault;
use crate::spells::{Spell, Spells};

impl Spell {
    // Whether the spell starts with round 1 at the earliest and ends with round 10,000 at the latest.
    fn fits(self) -> bool
        ensures { result ≡ fits self }
    {
        1 <= self.first && self.first <= self.last && self.last <= 10000
    }

    // Whether the round lies in the spell.
    fn spans(self, round: u32) -> bool
        ensures { result ≡ spans_at self round }
    {
        self.first <= round && round <= self.last
    }
}

impl Spells {
    pub fn new() -> Spells
        ensures { listed result ≡ [] }
    {
        Spells {
            list: [Spell { first: 0, last: 0 }; 16],
            count: 0,
        }
    }

    // One spell more, or a refusal where it does not fit or 16 are listed.
    pub fn add(&mut self, spell: Spell) -> Result<(), PartFault>
        ensures answer { result ≡ added (listed self.old) spell }
        ensures spells { listed self.new ≡ added_to (listed self.old) spell }
    {
        if !spell.fits() || self.count >= 16 {
            return Err(PartFault::Unfit);
        }
        self.list[self.count] = spell;
        self.count += 1;
        Ok(())
    }

    // The spells, as a slice.
    fn listed(&self) -> &[Spell]
        ensures { result.now ≡ listed self.now }
    {
        &self.list[..self.count]
    }

    // Whether the round lies in one of the spells.
    pub fn span(&self, round: u32) -> bool
        ensures { result ≡ spanned (listed self.now) round }
    {
        self.listed().iter().any(|spell| spell.spans(round))
    }

    // The round after the latest last round; 0 where there is no spell.
    pub fn after(&self) -> u32
        ensures { result ≡ past (listed self.now) }
    {
        self.listed()
            .iter()
            .max_by_key(|spell| spell.last)
            .map_or(0, |latest| latest.last + 1)
    }
}
