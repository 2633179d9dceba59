// Feasible prices for all rules, or a negative ring.
ghost use Rattle.std.specs.Prelude.{◌≡◌, ◌≤◌, length};
ghost use Rattle.queues.specs.Contents.{capacity_of, empty};
ghost use Rattle.settling.specs.Sizes.{Sized};
ghost use Rattle.pricing.specs.Starts.{Small, Priced};

use crate::relaxing::relax_rounds;
use crate::repairing::repair;
use crate::rings::Ring;
use delays::Millis;
use queues::Queue;
use rules::RuleNumber;
use settling::Loosened;

// Repairs the prices for each rule in turn. The queue is empty.
fn repair_all<Q: Queue<Millis>>(
    loose: &Loosened,
    prices: &mut [i64],
    queue: &mut Q,
    ring: &mut [RuleNumber],
) -> Result<(), Ring>
    requires sized { Sized loose.now.rules.now prices.old }
    requires small { Small prices.old }
    requires empty { Q.Queue.contents queue.old ≡ empty (capacity_of (Q.Queue.contents queue.old)) }
    requires capacity { length prices.old ≤ capacity_of (Q.Queue.contents queue.old) }
    requires ring { length prices.old ≤ length ring.old }
    ensures priced { Priced loose.now.by.0 loose.now.rules.now prices.old prices.new ring.old ring.new result }
    ensures queue { Q.Queue.contents queue.new ≡ empty (capacity_of (Q.Queue.contents queue.old)) }
{
    // By place: a rule is repaired for beside those before it.
    for place in 0..loose.rules.len() {
        repair(loose, place, prices, queue, ring)?;
    }
    Ok(())
}

// Lowers any prices, as little as need be, until they are feasible for the loosened rules. Where no prices are, answers a negative ring, and writes the
// numbers of its rules, in order; the prices are lowered in part then. The queue may be in any state, and is left empty.
pub fn prices<Q: Queue<Millis>>(
    loose: &Loosened,
    prices: &mut [i64],
    queue: &mut Q,
    ring: &mut [RuleNumber],
) -> Result<(), Ring>
    requires sized { Sized loose.now.rules.now prices.old }
    requires small { Small prices.old }
    requires capacity { length prices.old ≤ capacity_of (Q.Queue.contents queue.old) }
    requires ring { length prices.old ≤ length ring.old }
    ensures priced { Priced loose.now.by.0 loose.now.rules.now prices.old prices.new ring.old ring.new result }
    ensures queue { Q.Queue.contents queue.new ≡ empty (capacity_of (Q.Queue.contents queue.old)) }
{
    relax_rounds(loose, prices);
    queue.clear();
    repair_all(loose, prices, queue, ring)
}
