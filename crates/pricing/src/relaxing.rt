// Rounds of relaxation: prices lowered rule by rule.
ghost use Rattle.std.specs.Prelude.{◌≤◌, pos, ◌+ℤ◌, ◌≤ℤ◌, ◌<ℤ◌, unsigned_abs};
ghost use Rattle.rules.specs.Meets.{◌∈◌};
ghost use Rattle.settling.specs.Sizes.{Sized};
ghost use Rattle.pricing.specs.Starts.{start_size, Small, Lowered};

use delays::Millis;
use rules::Rule;
use settling::Loosened;

// No relaxation lowers a price below this.
const LEAST_PRICE: i64 = -500_000_000_000_000;

// A price lowered by a negative reduced limit, but not below the least price.
fn fall(price: i64, reduced: Millis) -> i64
    requires price { unsigned_abs price ≤ start_size }
    requires reduced { unsigned_abs reduced.0 ≤ 3_000_000_000_000_000 }
    requires negative { reduced.0 <ℤ pos 0 }
    ensures small { unsigned_abs result ≤ start_size }
    ensures early { result ≤ℤ price }
    ensures kept { (price +ℤ reduced.0) ≤ℤ result }
{
    (price + reduced.0).max(LEAST_PRICE)
}

// Lowers the price of the rule's second event, where the rule's reduced limit is negative, and answers whether it is.
fn relax(loose: &Loosened, rule: Rule, prices: &mut [i64]) -> bool
    requires sized { Sized loose.now.rules.now prices.old }
    requires rule { rule ∈ loose.now.rules.now }
    requires small { Small prices.old }
    ensures small { Small prices.new }
    ensures lowered { Lowered loose.now.by.0 loose.now.rules.now prices.old prices.new }
{
    let reduced = loose.reduced_limit(prices, rule);
    if reduced.0 < 0 {
        let price = &mut prices[rule.second as usize];
        *price = fall(*price, reduced);
        true
    } else {
        false
    }
}

// Relaxes every rule once, and answers whether any price was lowered.
fn relax_round(loose: &Loosened, prices: &mut [i64]) -> bool
    requires sized { Sized loose.now.rules.now prices.old }
    requires small { Small prices.old }
    ensures small { Small prices.new }
    ensures lowered { Lowered loose.now.by.0 loose.now.rules.now prices.old prices.new }
{
    let mut changed = false;
    for rule in loose.rules {
        changed |= relax(loose, *rule, prices);
    }
    changed
}

// Relaxes in rounds until no price is lowered, or there were as many rounds as events.
pub(crate) fn relax_rounds(loose: &Loosened, prices: &mut [i64])
    requires sized { Sized loose.now.rules.now prices.old }
    requires small { Small prices.old }
    ensures small { Small prices.new }
    ensures lowered { Lowered loose.now.by.0 loose.now.rules.now prices.old prices.new }
{
    for _ in 0..prices.len() {
        if !relax_round(loose, prices) {
            return;
        }
    }
}
