// Chains of rules read off the parents.
ghost use Rattle.std.specs.Prelude.{◌≡◌, ℕ, ◌+◌, ◌<◌, ◌≤◌, List, length};
ghost use Rattle.rules.specs.Meets.{EventsBelow};
ghost use Rattle.search.specs.Forests.{Forest, Traced, Written};

use rules::{EventNumber, Rule, RuleNumber};

// Rules and parents stay two parameters: a type that holds both cannot state `Forest`, which is given by a list of events and is no proposition.

// How many rules the chain by parents to the event has.
fn depth(rules: &[Rule], parents: &[Option<u16>], event: EventNumber) -> usize
    requires event { event < length parents.now }
    requires events { EventsBelow (length parents.now) rules.now }
    requires forest { Forest rules.now parents.now }
    ensures few { result < length parents.now }
    ensures traced { (places : List ℕ) × Traced rules.now parents.now event places × (length places ≡ result) }
{
    let mut at = event as usize;
    let mut count = 0;
    while let Some(place) = parents[at] {
        at = rules[place as usize].first as usize;
        count += 1;
    }
    count
}

// Writes the numbers of the rules by which the parents lead to the event, in order of travel, and answers how many there are: the list is the
// caller's, since no call may allocate.
pub fn trace(
    rules: &[Rule],
    parents: &[Option<u16>],
    event: EventNumber,
    numbers: &mut [RuleNumber],
) -> usize
    requires event { event < length parents.now }
    requires events { EventsBelow (length parents.now) rules.now }
    requires forest { Forest rules.now parents.now }
    requires room { length parents.now ≤ length numbers.old + 1 }
    ensures few { result < length parents.now }
    ensures written { Written rules.now parents.now event result numbers.old numbers.new }
{
    let count = depth(rules, parents, event);
    let mut at = event as usize;
    // By index: a proof does not see what a loop over `iter_mut().rev()` writes.
    for left in (0..count).rev() {
        let rule = rules[parents[at].unwrap() as usize];
        numbers[left] = rule.number;
        at = rule.first as usize;
    }
    count
}
