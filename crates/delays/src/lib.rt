// Kinds of delay: values that can be added, reversed and compared, on which searching and queues are written once.
#![tactic(auto)]

ghost use Rattle.std.specs.Prelude.{◌≡◌, Bool, true, false, ℕ, ◌+◌, ◌≤◌};
ghost use Rattle.delays.specs.Exactness.{exact_size};

pub mod amounts;
pub mod pairs;

pub use amounts::{Amount, Count, Millis};
pub use pairs::Pair;

// A kind of delay: an ordered commutative group, each value of which has a size.
// The ghost members are the kind's mathematics, on unbounded values, and the laws hold of all of them.
// The methods compute it, exactly while the sizes in a sum or an opposite add to at most 4 × 10^18.
// Past that they still return, with a value of which nothing is promised.
pub trait Delay: Copy {
    ghost zero: { Self };

    ghost plus: { Self → Self → Self };

    ghost negated: { Self → Self };

    ghost less: { Self → Self → Bool };

    ghost size: { Self → ℕ };

    fn zero() -> Self
        ensures { result ≡ zero };

    fn sum(self, other: Self) -> Self
        ensures { size self + size other ≤ exact_size → result ≡ plus self other };

    fn opposite(self) -> Self
        ensures { size self ≤ exact_size → result ≡ negated self };

    // Whether this value is strictly less than the other.
    fn below(self, other: Self) -> bool
        ensures { result ≡ less self other };

    // Sums make a commutative group.
    ghost identity: { (x : Self) → plus zero x ≡ x };

    ghost associative: { (x y z : Self) → plus (plus x y) z ≡ plus x (plus y z) };

    ghost commutative: { (x y : Self) → plus x y ≡ plus y x };

    ghost inverse: { (x : Self) → plus (negated x) x ≡ zero };

    // Of two different values one is less, and never both.
    ghost irreflexive: { (x : Self) → less x x ≡ false };

    ghost transitive: { (x y z : Self) → less x y ≡ true → less y z ≡ true → less x z ≡ true };

    ghost total: { (x y : Self) → less x y ≡ false → less y x ≡ false → x ≡ y };

    // Adding the same to both sides keeps less, equal and greater as they are.
    ghost shifted: { (x y z : Self) → less (plus z x) (plus z y) ≡ less x y };

    ghost size_zero: { size zero ≡ 0 };

    ghost size_negated: { (x : Self) → size (negated x) ≡ size x };

    ghost size_plus: { (x y : Self) → size (plus x y) ≤ size x + size y };
}
