// The settled times of a list of rules, or a negative ring of them.

#![tactic(auto)]

ghost use Rattle.std.specs.Prelude.{◌≡◌, ◌≤◌, length, replicate, pos, unsigned_abs};
ghost use Rattle.rules.specs.declared.records.Rule.{Rule};
ghost use Rattle.rules.specs.Meets.{◌∈◌, EventsBelow};
ghost use Rattle.queues.specs.Contents.{capacity_of};
ghost use Rattle.settling.specs.Sizes.{max_nodes, max_edges, limit_size};
ghost use Rattle.settled.specs.Settlings.{Settles, QueueLeft};

use delays::Millis;
use heaps::{Entry, Heap};
use pricing::{Ring, prices};
use queues::Queue;
use rules::{Rule, RuleNumber};
use settling::{Loosened, MAX_NODES, settle};

// Settles with a list for prices, all of them 0.
fn settle_from<Q: Queue<Millis>>(
    rules: &[Rule],
    start: &mut [i64],
    times: &mut [i64],
    queue: &mut Q,
    ring: &mut [RuleNumber],
) -> Result<(), Ring>
    requires start { start.old ≡ replicate (length times.old) (pos 0) }
    requires few_events { length times.old ≤ max_nodes }
    requires few_rules { length rules.now ≤ max_edges }
    requires events { EventsBelow (length times.old) rules.now }
    requires limits { (r : Rule) → r ∈ rules.now → unsigned_abs r.limit ≤ limit_size }
    requires capacity { length times.old ≤ capacity_of (Q.Queue.contents queue.old) }
    requires ring { length times.old ≤ length ring.old }
    ensures settles { Settles rules.now times.old times.new ring.old ring.new result }
    ensures queue { QueueLeft (length times.old) (Q.Queue.contents queue.old) (Q.Queue.contents queue.new) result }
{
    let loose = Loosened {
        rules,
        by: Millis::of(0),
    };
    prices(&loose, start, queue, ring)?;
    settle(&loose, start, queue, times);
    Ok(())
}

// Writes the settled times of the rules, one for each entry of the list. Where no times meet the rules, answers a negative ring, and writes the
// numbers of its rules, in order. The queue may be in any state.
pub fn settle_rules<Q: Queue<Millis>>(
    rules: &[Rule],
    times: &mut [i64],
    queue: &mut Q,
    ring: &mut [RuleNumber],
) -> Result<(), Ring>
    requires few_events { length times.old ≤ max_nodes }
    requires few_rules { length rules.now ≤ max_edges }
    requires events { EventsBelow (length times.old) rules.now }
    requires limits { (r : Rule) → r ∈ rules.now → unsigned_abs r.limit ≤ limit_size }
    requires capacity { length times.old ≤ capacity_of (Q.Queue.contents queue.old) }
    requires ring { length times.old ≤ length ring.old }
    ensures settles { Settles rules.now times.old times.new ring.old ring.new result }
    ensures queue { QueueLeft (length times.old) (Q.Queue.contents queue.old) (Q.Queue.contents queue.new) result }
{
    // A fixed array, since no call allocates.
    let mut start = [0i64; MAX_NODES];
    let start = &mut start[..times.len()];
    // All are 0 already; the call says so of the part.
    start.fill(0);
    settle_from(rules, start, times, queue, ring)
}

// The same with a heap of its own.
pub fn settle_by_heap(
    rules: &[Rule],
    times: &mut [i64],
    ring: &mut [RuleNumber],
) -> Result<(), Ring>
    requires few_events { length times.old ≤ max_nodes }
    requires few_rules { length rules.now ≤ max_edges }
    requires events { EventsBelow (length times.old) rules.now }
    requires limits { (r : Rule) → r ∈ rules.now → unsigned_abs r.limit ≤ limit_size }
    requires ring { length times.old ≤ length ring.old }
    ensures { Settles rules.now times.old times.new ring.old ring.new result }
{
    // A fixed array, since no call allocates.
    let mut entries: [Entry<Millis>; MAX_NODES] = [Entry::new(); MAX_NODES];
    let mut heap = Heap::new(&mut entries[..]);
    settle_rules(rules, times, &mut heap, ring)
}
