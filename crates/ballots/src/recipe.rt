// Recipes.
ghost use Rattle.std.specs.Prelude.{◌≡◌, ◌≤◌, nat_lt};
ghost use Rattle.std.proofs.Common.{ap, inl, inr, ⊎_elim, arith};
ghost use Rattle.ballots.specs.Kinds.{recipe, recipe_from};
ghost use Rattle.std.proofs.lemmas.Bool.Decides.{nat_tests};
ghost use Rattle.std.proofs.lemmas.Bool.{cases_order, lt-ltb};
ghost use Rattle.ballots.specs.Same.{same_recipe};

use crate::faults::BallotFault;
use crate::kinds::Recipe;
use crate::{Ballot, Coded};

impl Recipe {
    // The recipe of a number up to 4095.
    pub fn new(number: u16) -> Result<Recipe, BallotFault>
        ensures { result ≡ recipe_from number }
    {
        if number > 4095 {
            return Err(BallotFault::BeyondRange);
        }
        Ok(Recipe { number })
    }
}

impl Ballot for Recipe {
    ghost earlier = { λ a b. nat_lt a.number b.number };

    ghost total = { record {
      one = λ a b. ⊎_elim (λ e. inr (inl (same_recipe a b e))) (⊎_elim (λ l. inl (lt-ltb _ _ l)) (λ l. inr (inr (lt-ltb _ _ l)))) (cases_order a.number b.number);
      not_itself = λ a b e. let v = ap (λ x. x.number) e in Prim.grind (arith, nat_tests);
      not_both = λ a b p. Prim.grind (arith, nat_tests);
      carries = λ a b c p q. Prim.grind (arith, nat_tests);
    } };

    fn before(&self, other: &Self) -> bool {
        self.number < other.number
    }
}

impl Coded for Recipe {
    const W: u32 = 12;

    ghost W = { 12 };

    ghost encoded = { λ b. b.number };

    ghost decoded = { recipe };

    ghost coding = { record {
      some = omega arith;
      most = omega arith;
      below = λ b. omega arith;
      back = λ b. same_recipe (recipe b.number) b (omega arith);
    } };

    fn code(&self) -> u16 {
        self.number
    }

    fn from_code(code: u16) -> Self {
        Recipe {
            number: code % 4096,
        }
    }
}
