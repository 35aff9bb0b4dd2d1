// Money.
ghost use Rattle.std.specs.Prelude.{◌≡◌, ◌≤◌, ◌-ℤ◌, neg_ℤ, unsigned_abs};
ghost use Rattle.measures.specs.Held.{held};

use crate::amount::LIMIT;
use std::ops::{Neg, Sub};

// An amount of money, in thousandths of a kopeck: above zero a credit, below zero a debit.
#[derive(Clone, Copy, Debug, PartialEq, Eq, PartialOrd, Ord)]
pub struct Money {
    pub mkop: i64,
    ghost limited: { unsigned_abs mkop ≤ 1000000000000000000 },
}

// A credit turned into a debit of the same size, and a debit into a credit.
impl Neg for Money {
    type Output = Money;

    ghost neg_gives = { λ money turned. turned.mkop ≡ neg_ℤ money.mkop };

    fn neg(self) -> Money {
        Money { mkop: -self.mkop }
    }
}

// How much more one amount is than another; beyond the limit of an amount it is held there, as a sum is.
impl Sub for Money {
    type Output = Money;

    ghost sub_gives = { λ money other rest. rest.mkop ≡ held (money.mkop -ℤ other.mkop) };

    fn sub(self, other: Money) -> Money {
        Money {
            mkop: (self.mkop - other.mkop).clamp(-LIMIT, LIMIT),
        }
    }
}
