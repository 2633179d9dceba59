// The events that one event reaches.
ghost use Rattle.std.specs.Prelude.{◌≡◌, ℕ, ◌<◌, ◌≤◌, false, length, is_some, None, slice_index_or};
ghost use Rattle.rules.specs.Meets.{EventsBelow};
ghost use Rattle.queues.specs.Contents.{capacity_of};
ghost use Rattle.settling.specs.Sizes.{max_nodes, max_edges};
ghost use Rattle.leads.specs.Tellings.{CountsReached, ReachTold};

use crate::sources::search_from;
use delays::{Delay, Millis};
use queues::Queue;
use rules::{EventNumber, Rule};
use settling::{MAX_EDGES, MAX_NODES};

// Writes for each event whether it has a label.
fn write_flags(labels: &[Option<Millis>], reached: &mut [bool])
    requires { length labels.now ≡ length reached.old }
    ensures { (v : ℕ) → slice_index_or reached.new v false ≡ is_some (slice_index_or labels.now v None) }
{
    // By index: a proof does not see what a zip over `iter_mut` writes.
    for (event, flag) in reached.iter_mut().enumerate() {
        *flag = labels[event].is_some();
    }
}

// Writes for each event whether the source reaches it.
pub fn reach<Q: Queue<Millis>>(
    rules: &[Rule],
    source: EventNumber,
    reached: &mut [bool],
    queue: &mut Q,
)
    requires few_events { length reached.old ≤ max_nodes }
    requires few_rules { length rules.now ≤ max_edges }
    requires events { EventsBelow (length reached.old) rules.now }
    requires source { source < length reached.old }
    requires capacity { length reached.old ≤ capacity_of (Q.Queue.contents queue.old) }
    ensures counted { CountsReached rules.now source (Q.Queue.contents queue.old) (Q.Queue.contents queue.new) }
    ensures reached { ReachTold rules.now source reached.new }
{
    let weights = [Millis::zero(); MAX_EDGES];
    let mut labels = [None; MAX_NODES];
    let mut parents = [None; MAX_NODES];
    let labels = &mut labels[..reached.len()];
    let parents = &mut parents[..reached.len()];
    search_from(rules, &weights, source, labels, parents, queue);
    write_flags(labels, reached);
}
