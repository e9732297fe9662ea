// Tickets.
ghost use Rattle.std.specs.Prelude.{◌≡◌, ◌+◌, ◌*◌, ◌/◌, ◌≤◌, ◌&&◌, ◌||◌, ◌==◌, nat_lt};
ghost use Rattle.std.proofs.Common.{ap, inl, inr, ⊎_elim, arith};
ghost use Rattle.ballots.specs.Kinds.{ticket, ticket_from};
ghost use Rattle.std.proofs.lemmas.Bool.Decides.{nat_tests};
ghost use Rattle.std.proofs.lemmas.Bool.{cases_order};
ghost use Rattle.ballots.specs.Same.{same_ticket};

use crate::faults::BallotFault;
use crate::kinds::Ticket;
use crate::{Ballot, Coded};

impl Ticket {
    // The ticket of a grade up to 15 and a tank up to 63.
    pub fn new(grade: u8, tank: u8) -> Result<Ticket, BallotFault>
        ensures { result ≡ ticket_from grade tank }
    {
        if grade > 15 || tank > 63 {
            return Err(BallotFault::BeyondRange);
        }
        Ok(Ticket { grade, tank })
    }
}

impl Ballot for Ticket {
    ghost earlier = { λ a b. nat_lt b.grade a.grade || (a.grade == b.grade && nat_lt a.tank b.tank) };

    ghost total = { record {
      one = λ a b.
          ⊎_elim (λ e. ⊎_elim (λ f. inr (inl (same_ticket a b e f))) (⊎_elim (λ l. inl (Prim.grind (arith, nat_tests))) (λ l. inr (inr (Prim.grind (arith, nat_tests))))) (cases_order a.tank b.tank))
          (⊎_elim (λ l. inr (inr (Prim.grind (arith, nat_tests)))) (λ l. inl (Prim.grind (arith, nat_tests)))) (cases_order a.grade b.grade);
      not_itself = λ a b e. let v = ap (λ x. x.grade) e in let w = ap (λ x. x.tank) e in Prim.grind (arith, nat_tests);
      not_both = λ a b p. Prim.grind (arith, nat_tests);
      carries = λ a b c p q. Prim.grind (arith, nat_tests);
    } };

    fn before(&self, other: &Self) -> bool {
        other.grade < self.grade || (self.grade == other.grade && self.tank < other.tank)
    }
}

impl Coded for Ticket {
    const W: u32 = 10;

    ghost W = { 10 };

    ghost encoded = { λ b. b.grade * 64 + b.tank };

    ghost decoded = { λ code. ticket (code / 64) code };

    ghost coding = { record {
      some = omega arith;
      most = omega arith;
      below = λ b. omega arith;
      back = λ b. let code = b.grade * 64 + b.tank in same_ticket (ticket (code / 64) code) b (omega arith) (omega arith);
    } };

    fn code(&self) -> u16 {
        self.grade as u16 * 64 + self.tank as u16
    }

    fn from_code(code: u16) -> Self {
        Ticket {
            grade: (code / 64 % 16) as u8,
            tank: (code % 64) as u8,
        }
    }
}
