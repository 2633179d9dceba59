// The weights of rules: reduced limits, with what each rule counts.
ghost use Rattle.std.specs.Prelude.{◌≡◌, ◌≤◌, length, unsigned_abs};
ghost use Rattle.rules.specs.Meets.{◌∈◌, at};
ghost use Rattle.rules.specs.Prices.{reduced_limit};
ghost use Rattle.leads.specs.Weights.{reduced_size, weight, Weighed};

use crate::counting::Counting;
use crate::priced::PricedRules;
use crate::records::Key;
use delays::{Count, Millis, Pair};
use rules::Rule;

impl PricedRules<'_> {
    // A rule's limit, more by the price of its first event and less by that of its second.
    // `settling` has the same for loosened rules, but rules out the least limit that an i32 holds; here any may stand.
    fn reduced(&self, rule: Rule) -> i64
        requires { rule ∈ self.now.rules.now }
        ensures is { result ≡ reduced_limit (at self.now.prices.now) rule }
        ensures small { unsigned_abs result ≤ reduced_size }
    {
        i64::from(rule.limit) + self.prices[rule.first as usize] - self.prices[rule.second as usize]
    }

    // The weight of a rule: its reduced limit, or 0 where that is below 0, and what it counts.
    fn weight_of<C: Counting>(&self, counting: C, rule: Rule) -> Key
        requires { rule ∈ self.now.rules.now }
        ensures is { result ≡ weight C.counts (at self.now.prices.now) rule }
        ensures small { unsigned_abs (reduced_limit (at self.now.prices.now) rule) ≤ reduced_size }
    {
        Pair {
            first: Millis::of(self.reduced(rule).max(0)),
            second: Count::of(counting.count(rule.limit)),
        }
    }

    // Writes the weight of each rule.
    // The same loop stands in `settling`: one function for both would take a closure, and ask and promise more words about it than the loop has.
    pub(crate) fn weigh<C: Counting>(&self, counting: C, weights: &mut [Key])
        requires { length self.now.rules.now ≤ length weights.old }
        ensures { Weighed C.counts self.now.rules.now (at self.now.prices.now) weights.new (length self.now.rules.now) }
    {
        // By index: a proof does not see what a zip over `iter_mut` writes.
        for (place, rule) in self.rules.iter().enumerate() {
            weights[place] = self.weight_of(counting, *rule);
        }
    }
}
