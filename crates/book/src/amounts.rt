// Amounts of money, and percentages of them.
ghost use Rattle.std.specs.Prelude.{◌≡◌, ◌≤◌};
ghost use Rattle.coal.specs.Coal.{percent_down};

use crate::refusals::Refusal;
use std::marker::Model;

// 0 to 100 percent, as the default rate R: a clause sees the number.
#[derive(Clone, Copy)]
pub struct Percent {
    pub value: u64,
}

impl Model for Percent {
    ghost use Rattle.std.specs.Prelude.{ℕ, ◌≤◌};

    ghost Value = { ℕ };

    ghost view = { λ p. p.value };

    ghost invariant = { λ p. p.value ≤ 100 };

    ghost inverse = { λ n. record { value = n } };
}

// Fen that are paid at once, at most 10^15: a clause sees the number.
#[derive(Clone, Copy)]
pub struct Amount {
    pub fen: u64,
}

impl Model for Amount {
    ghost use Rattle.std.specs.Prelude.{ℕ, ◌≤◌};

    ghost Value = { ℕ };

    ghost view = { λ a. a.fen };

    ghost invariant = { λ a. a.fen ≤ 1_000_000_000_000_000 };

    ghost inverse = { λ n. record { fen = n } };
}

// "Proceeds outside 0..10^15 are refused as 8."
impl TryFrom<u64> for Amount {
    type Error = Refusal;

    ghost use Rattle.book.specs.Amounts.{IsAmount};

    ghost try_from_gives = { IsAmount };

    fn try_from(fen: u64) -> Result<Self, Refusal> {
        if 1_000_000_000_000_000 < fen {
            return Err(Refusal::OutsideSet);
        }
        Ok(Amount { fen })
    }
}

impl Amount {
    // So many percent of it, the fraction dropped.
    #[tactic(auto, using(coal::proofs::laws::Bounds::percent_down_most))]
    pub fn percent_down(self, percent: Percent) -> Amount
        ensures part { result ≡ percent_down percent self }
        ensures few { result ≤ self }
    {
        Amount {
            fen: coal::rounding::percent_down(percent.value, self.fen),
        }
    }
}
