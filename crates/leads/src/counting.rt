// What is counted along chains: rules, or limits below 0.
ghost use Rattle.std.specs.Prelude.{◌≡◌, ℕ, ◌≤◌, ℤ, pos};
ghost use Rattle.rules.specs.Distances.{below_zero};
ghost use Rattle.std.proofs.Common.{rules};

// What each rule of a chain counts, by its limit: 1 at most.
pub trait Counting: Copy {
    ghost counts: { ℤ → ℕ };

    fn count(self, limit: i32) -> i64
        ensures { result ≡ pos (counts limit) };

    ghost few: { (limit : ℤ) → counts limit ≤ 1 };
}

// Each rule counts 1.
#[derive(Clone, Copy)]
pub struct EachRule;

impl Counting for EachRule {
    ghost counts = { λ _. 1 };

    ghost few = { Prim.search rules };

    fn count(self, _limit: i32) -> i64 {
        1
    }
}

// A rule counts 1 where its limit is below 0, and else 0.
#[derive(Clone, Copy)]
pub struct BelowZero;

impl Counting for BelowZero {
    ghost counts = { below_zero };

    ghost few = { Prim.search rules };

    fn count(self, limit: i32) -> i64 {
        if limit < 0 { 1 } else { 0 }
    }
}
