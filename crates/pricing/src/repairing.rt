// Prices repaired for one more rule. The prices are the caller's own list, lent beside the queue and the list for a ring; that they are small stays a clause, since each call changes them.
ghost use Rattle.std.specs.Prelude.{◌≡◌, ◌+◌, ◌<◌, ◌≤◌, ◌∷◌, length, take, pos, ◌<ℤ◌, unsigned_abs};
ghost use Rattle.delays.specs.Numbers.{amount};
ghost use Rattle.rules.specs.Meets.{at, EventsBelow};
ghost use Rattle.rules.specs.Prices.{reduced_limit, loosen};
ghost use Rattle.queues.specs.Contents.{capacity_of, empty};
ghost use Rattle.search.specs.Forests.{Forest};
ghost use Rattle.settling.specs.Sizes.{limit_size, Sized, Feasible};
ghost use Rattle.pricing.specs.Repairs.{Repaired, Closed, fallen};

use crate::rings::Ring;
use delays::Millis;
use queues::Queue;
use rules::{Rule, RuleNumber};
use search::{Network, start_alone, trace};
use settling::{Loosened, MAX_EDGES, MAX_NODES, raise_all};

// Whether a label is below 0.
fn is_fallen(label: Option<Millis>) -> bool
    ensures { result ≡ fallen label }
{
    label.is_some_and(|key| key.0 < 0)
}

// The ring of the rule and of the chain by parents to its first event. Writes the numbers of its rules.
fn show_ring(rules: &[Rule], rule: Rule, parents: &[Option<u16>], ring: &mut [RuleNumber]) -> Ring
    requires first { rule.first < length parents.now }
    requires events { EventsBelow (length parents.now) rules.now }
    requires forest { Forest rules.now parents.now }
    requires room { length parents.now ≤ length ring.old }
    ensures { Closed rules.now rule parents.now result.size ring.old ring.new }
{
    let count = trace(rules, parents, rule.first, &mut ring[1..]);
    ring[0] = rule.number;
    Ring { size: count + 1 }
}

// Repairs prices that are feasible for some rules for one more rule, whose reduced limit, the key, is below 0: searches from its second event,
// with all other events labelled 0.
fn repair_negative<Q: Queue<Millis>>(
    loose: &Loosened,
    rule: Rule,
    key: Millis,
    prices: &mut [i64],
    queue: &mut Q,
    ring: &mut [RuleNumber],
) -> Result<(), Ring>
    requires limit { unsigned_abs rule.limit ≤ limit_size }
    requires sized { Sized (rule ∷ loose.now.rules.now) prices.old }
    requires feasible { Feasible loose.now.by.0 loose.now.rules.now prices.old }
    requires key { key ≡ amount (reduced_limit (at prices.old) (loosen loose.now.by.0 rule)) }
    requires negative { key.0 <ℤ pos 0 }
    requires capacity { length prices.old ≤ capacity_of (Q.Queue.contents queue.old) }
    requires ring { length prices.old ≤ length ring.old }
    ensures repaired { Repaired loose.now.by.0 (rule ∷ loose.now.rules.now) prices.old prices.new ring.old ring.new result }
    ensures queue { Q.Queue.contents queue.new ≡ empty (capacity_of (Q.Queue.contents queue.old)) }
{
    // Fixed arrays, since no call allocates.
    let mut weights = [Millis::of(0); MAX_EDGES];
    let mut heads = [None; MAX_NODES];
    let mut nexts = [None; MAX_EDGES];
    let mut labels = [None; MAX_NODES];
    let mut parents = [None; MAX_NODES];
    let labels = &mut labels[..prices.len()];
    let parents = &mut parents[..prices.len()];
    loose.weigh(prices, &mut weights);
    let network = Network::new(loose.rules, &weights, &mut heads, &mut nexts);
    let others = Some(Millis::of(0));
    start_alone(rule.second, key, others, labels, parents, queue);
    network.search(labels, parents, queue);
    queue.clear();
    if is_fallen(labels[rule.first as usize]) {
        return Err(show_ring(loose.rules, rule, parents, ring));
    }
    raise_all(labels, prices);
    Ok(())
}

// Lowers prices that are feasible for the rules before a place, each loosened by so much, until they are feasible for the rule there too. Where no prices
// are, answers a negative ring, and writes the numbers of its rules, in order. The queue may be in any state, and is left empty.
pub fn repair<Q: Queue<Millis>>(
    loose: &Loosened,
    place: usize,
    prices: &mut [i64],
    queue: &mut Q,
    ring: &mut [RuleNumber],
) -> Result<(), Ring>
    requires sized { Sized loose.now.rules.now prices.old }
    requires place { place < length loose.now.rules.now }
    requires feasible { Feasible loose.now.by.0 (take place loose.now.rules.now) prices.old }
    requires capacity { length prices.old ≤ capacity_of (Q.Queue.contents queue.old) }
    requires ring { length prices.old ≤ length ring.old }
    ensures repaired { Repaired loose.now.by.0 (take (place + 1) loose.now.rules.now) prices.old prices.new ring.old ring.new result }
    ensures queue { Q.Queue.contents queue.new ≡ empty (capacity_of (Q.Queue.contents queue.old)) }
{
    let rule = loose.rules[place];
    let key = loose.reduced_limit(prices, rule);
    if key.0 < 0 {
        let before = Loosened {
            rules: &loose.rules[..place],
            by: loose.by,
        };
        repair_negative(&before, rule, key, prices, queue, ring)
    } else {
        queue.clear();
        Ok(())
    }
}
