// Delays made of two others.
ghost use Rattle.delays.specs.Pairs.{pair, pair_plus, pair_negated, pair_less, pair_size};
ghost use Rattle.std.proofs.Common.{rules};

use crate::Delay;

// A delay of any two kinds, compared by the second part where the first parts are equal.
#[derive(Clone, Copy, PartialEq, Eq, Debug)]
pub struct Pair<X, Y> {
    pub first: X,
    pub second: Y,
}

impl<X: Delay, Y: Delay> Delay for Pair<X, Y> {
    ghost zero = { pair X.Delay.zero Y.Delay.zero };

    ghost plus = { pair_plus X.Delay.plus Y.Delay.plus };

    ghost negated = { pair_negated X.Delay.negated Y.Delay.negated };

    ghost less = { pair_less X.Delay.less Y.Delay.less };

    ghost size = { pair_size X.Delay.size Y.Delay.size };

    ghost identity = { Prim.search rules };

    ghost associative = { Prim.search rules };

    ghost commutative = { Prim.search rules };

    ghost inverse = { Prim.search rules };

    ghost irreflexive = { Prim.search rules };

    ghost transitive = { Prim.search rules };

    ghost total = { Prim.search rules };

    ghost shifted = { Prim.search rules };

    ghost size_zero = { Prim.search rules };

    ghost size_negated = { Prim.search rules };

    ghost size_plus = { Prim.search rules };

    fn zero() -> Pair<X, Y> {
        Pair {
            first: X::zero(),
            second: Y::zero(),
        }
    }

    fn sum(self, other: Pair<X, Y>) -> Pair<X, Y> {
        Pair {
            first: self.first.sum(other.first),
            second: self.second.sum(other.second),
        }
    }

    fn opposite(self) -> Pair<X, Y> {
        Pair {
            first: self.first.opposite(),
            second: self.second.opposite(),
        }
    }

    // By hand, since with a derived `<` a heap of pairs takes a sixth longer.
    fn below(self, other: Pair<X, Y>) -> bool {
        if self.first.below(other.first) {
            true
        } else if other.first.below(self.first) {
            false
        } else {
            self.second.below(other.second)
        }
    }
}
