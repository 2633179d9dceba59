// Delays that are one whole number: milliseconds, or a count of rules.
ghost use Rattle.std.specs.Prelude.{◌≡◌};
ghost use Rattle.delays.specs.Numbers.{amount, amount_zero, amount_plus, amount_negated, amount_less, amount_size};
ghost use Rattle.std.proofs.Common.{rules};

use crate::Delay;
use std::marker::PhantomData;

// A whole number of the unit `U`, of which nothing is stored.
#[derive_where(Clone, Copy, PartialEq, Eq, PartialOrd, Ord, Debug)]
pub struct Amount<U>(pub i64, PhantomData<U>);

// The unit of times.
pub struct Milliseconds;

// The unit of counts of rules.
pub struct RuleCount;

// Whole milliseconds.
pub type Millis = Amount<Milliseconds>;

// A signed count of rules.
pub type Count = Amount<RuleCount>;

impl<U> Amount<U> {
    pub const fn of(number: i64) -> Amount<U>
        ensures { result ≡ amount number }
    {
        Amount(number, PhantomData)
    }
}

impl<U> Delay for Amount<U> {
    ghost zero = { amount_zero };

    ghost plus = { amount_plus };

    ghost negated = { amount_negated };

    ghost less = { amount_less };

    ghost size = { amount_size };

    ghost identity = { Prim.search rules };

    ghost associative = { Prim.search rules };

    ghost commutative = { Prim.search rules };

    ghost inverse = { Prim.search rules };

    ghost irreflexive = { Prim.search rules };

    ghost transitive = { Prim.search rules };

    ghost total = { Prim.search rules };

    ghost shifted = { Prim.search rules };

    ghost size_zero = { Prim.search rules };

    ghost size_negated = { Prim.search rules };

    ghost size_plus = { Prim.search rules };

    fn zero() -> Amount<U> {
        Amount::of(0)
    }

    fn sum(self, other: Amount<U>) -> Amount<U> {
        Amount::of(self.0.saturating_add(other.0))
    }

    fn opposite(self) -> Amount<U> {
        Amount::of(self.0.saturating_neg())
    }

    fn below(self, other: Amount<U>) -> bool {
        self < other
    }
}
