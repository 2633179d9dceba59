// Rules with weights, linked by their first events.
ghost use Rattle.std.specs.Prelude.{◌≡◌, ◌≤◌, length};
ghost use Rattle.rules.specs.Bounds.{max_count};
ghost use Rattle.rules.specs.Meets.{EventsBelow};
ghost use Rattle.rules.specs.Places.{first_of};
ghost use Rattle.links.specs.Links.{Linked};
ghost use Rattle.search.specs.Networks.{network};
ghost use Rattle.search.specs.Searches.{NoneNegative};

use delays::Delay;
use links::{Links, link};
use rules::Rule;

// Links the places of all rules by first event.
pub fn link_rules(rules: &[Rule], heads: &mut [Option<u16>], nexts: &mut [Option<u16>])
    requires few { length rules.now ≤ max_count }
    requires events { EventsBelow (length heads.old) rules.now }
    requires nexts { length rules.now ≤ length nexts.old }
    ensures { Linked (first_of rules.now) (length rules.now) heads.new nexts.new }
{
    heads.fill(None);
    for (place, rule) in rules.iter().enumerate() {
        link(heads, nexts, rule.first as usize, place as u16);
    }
}

// What a search goes by: rules, the weight of the rule at each place, and the places of the rules that leave each event.
// Weights stand beside the rules, which are the caller's own list: together they would be copied, and no call may allocate.
#[derive(Drop)]
pub struct Network<'a, K: Delay> {
    pub rules: &'a [Rule],
    pub weights: &'a [K],
    pub links: Links<'a>,
    pub ghost weighed: { length rules.now ≤ length weights.now },
    pub ghost rising: { NoneNegative (network K.Delay rules.now weights.now) },
    pub ghost linked: { Linked (first_of rules.now) (length rules.now) links.heads.now links.nexts.now },
}

impl<'a, K: Delay> Network<'a, K> {
    // The rules with these weights, linked by first event.
    pub fn new(
        rules: &'a [Rule],
        weights: &'a [K],
        heads: &'a mut [Option<u16>],
        nexts: &'a mut [Option<u16>],
    ) -> Self
        requires few { length rules.now ≤ max_count }
        requires events { EventsBelow (length heads.old) rules.now }
        requires weights { length rules.now ≤ length weights.now }
        requires nexts { length rules.now ≤ length nexts.old }
        requires rising { NoneNegative (network K.Delay rules.now weights.now) }
        ensures rules { result.rules.now ≡ rules.now }
        ensures weights { result.weights.now ≡ weights.now }
        ensures heads { length result.links.heads.now ≡ length heads.old }
    {
        link_rules(rules, heads, nexts);
        Network {
            rules,
            weights,
            links: Links { heads, nexts },
        }
    }
}
