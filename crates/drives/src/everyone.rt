// A contention manager of the program's own: every running head has a turn, in every round.
ghost use Rattle.std.specs.Prelude.{nat_le};
ghost use Rattle.std.proofs.Common.{arith};
ghost use Rattle.std.proofs.lemmas.Bool.{and_parts, leb-true, cond-false, cond_both};
ghost use Rattle.sets.specs.Sets.{Within};
ghost use Rattle.sets.proofs.Words.{none_within};
ghost use Rattle.parts.specs.Managers.{Keeps};
ghost use Rattle.parts.specs.Ranges.{in_time};
ghost use Rattle.drives.specs.Everyone.{all_running, everyone};

use managers::giving::{ByLastTold, Giving};

#[derive(Clone, Copy)]
pub struct ToEveryone;

impl Giving for ToEveryone {
    const SINGLE: u32 = 10001;

    ghost SINGLE = { 10001 };

    ghost gives = { all_running };

    ghost keeps = { λ told.
        let kept : Keeps (everyone told) = record {
          some = omega arith;
          most = omega arith;
          running = λ r s. cond_both (in_time r) s 0 (λ w. Within w s) (λ _ i h. h) (λ _. none_within s);
          one = λ r s i b past _ _. absurd (omega (arith, leb-true r 10000 (and_parts (nat_le 1 r) (nat_le r 10000) b).1, past));
          outside = λ r s b. cond-false (in_time r) s 0 b;
        } in
        kept };

    fn turns(_told: u32, running: u64) -> u64 {
        running
    }
}

pub type Everyone = ByLastTold<ToEveryone>;
