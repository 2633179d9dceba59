// Shortest chains with fewest rules, read off the parents.
ghost use Rattle.std.specs.Prelude.{◌+◌, ◌<◌, ◌≤◌, length};
ghost use Rattle.rules.specs.Meets.{EventsBelow};
ghost use Rattle.search.specs.Forests.{Forest};
ghost use Rattle.leads.specs.Tellings.{ChainTold};

use rules::{EventNumber, Rule, RuleNumber};
use search::trace;

// Writes the numbers of the rules of the chain by parents to the event, and answers how many there are: the list is the caller's, since no call may
// allocate.
// Where the parents are those of `lead` from a source that reaches the event, the chain leads from the source and is a shortest one with fewest rules.
pub fn chain_to(
    rules: &[Rule],
    parents: &[Option<u16>],
    event: EventNumber,
    numbers: &mut [RuleNumber],
) -> usize
    requires event { event < length parents.now }
    requires events { EventsBelow (length parents.now) rules.now }
    requires forest { Forest rules.now parents.now }
    requires room { length parents.now ≤ length numbers.old + 1 }
    ensures few { result < length parents.now }
    ensures shown { ChainTold rules.now parents.now event result numbers.old numbers.new }
{
    trace(rules, parents, event, numbers)
}
