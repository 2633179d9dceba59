// Loosened rules, and their limits reduced by prices.
ghost use Rattle.settling.specs.Sizes.{Limited};

use delays::Millis;
use rules::Rule;

// Rules, each loosened by so much. There is room for all, and no limit is too large.
// What is asked of them with prices (`Sized`) stays in clauses, since prices are written from call to call.
#[derive(Clone, Copy)]
pub struct Loosened<'a> {
    pub rules: &'a [Rule],
    pub by: Millis,
    pub ghost limited: { Limited by.0 rules.now },
}

impl<'a> Loosened<'a> {
    ghost use Rattle.std.specs.Prelude.{◌≡◌, ◌≤◌, length};
    ghost use Rattle.delays.specs.Numbers.{amount};
    ghost use Rattle.rules.specs.Meets.{◌∈◌, at};
    ghost use Rattle.rules.specs.Prices.{reduced_limit, loosen};
    ghost use Rattle.settling.specs.Sizes.{Sized};
    ghost use Rattle.settling.specs.Weights.{Weighed};

    // The limit of one of the rules, loosened and reduced by the prices.
    pub fn reduced_limit(&self, prices: &[i64], rule: Rule) -> Millis
        requires sized { Sized self.now.rules.now prices.now }
        requires rule { rule ∈ self.now.rules.now }
        ensures { result ≡ amount (reduced_limit (at prices.now) (loosen self.now.by.0 rule)) }
    {
        let first = prices[rule.first as usize];
        let second = prices[rule.second as usize];
        let reduced = rule.limit as i64 + self.by.0 + (first - second);
        Millis::of(reduced)
    }

    // Writes the loosened limit of each rule, reduced by the prices, at its place.
    pub fn weigh(&self, prices: &[i64], weights: &mut [Millis])
        requires sized { Sized self.now.rules.now prices.now }
        requires room { length self.now.rules.now ≤ length weights.old }
        ensures { Weighed self.now.by.0 self.now.rules.now prices.now weights.new }
    {
        // By index: a proof does not see what a zip over `iter_mut` writes.
        for (place, rule) in self.rules.iter().enumerate() {
            weights[place] = self.reduced_limit(prices, *rule);
        }
    }
}
