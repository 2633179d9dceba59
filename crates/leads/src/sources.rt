// Searches that start from one event, the source. Labels, parents and the queue are lent one by one, as to any search.
ghost use Rattle.std.specs.Prelude.{◌≡◌, ◌<◌, ◌≤◌, length, None};
ghost use Rattle.rules.specs.Meets.{EventsBelow};
ghost use Rattle.queues.specs.Contents.{capacity_of};
ghost use Rattle.search.specs.Networks.{network, labelling};
ghost use Rattle.search.specs.Searches.{NoneNegative, Exact, Searched};
ghost use Rattle.search.specs.Beginnings.{alone};
ghost use Rattle.settling.specs.Sizes.{max_nodes, max_edges};

use delays::Delay;
use queues::Queue;
use rules::{EventNumber, Rule};
use search::{Network, start_alone};
use settling::{MAX_EDGES, MAX_NODES};

// Searches from the source alone, under the key zero.
pub(crate) fn search_from<K: Delay, Q: Queue<K>>(
    rules: &[Rule],
    weights: &[K],
    source: EventNumber,
    labels: &mut [Option<K>],
    parents: &mut [Option<u16>],
    queue: &mut Q,
)
    requires few_events { length labels.old ≤ max_nodes }
    requires few_rules { length rules.now ≤ max_edges }
    requires events { EventsBelow (length labels.old) rules.now }
    requires source { source < length labels.old }
    requires weights { length rules.now ≤ length weights.now }
    requires parents { length parents.old ≡ length labels.old }
    requires capacity { length labels.old ≤ capacity_of (Q.Queue.contents queue.old) }
    requires rising { NoneNegative (network K.Delay rules.now weights.now) }
    requires exact { Exact (network K.Delay rules.now weights.now) (alone (length labels.old) (capacity_of (Q.Queue.contents queue.old)) source K.Delay.zero None) }
    ensures { Searched (network K.Delay rules.now weights.now) (alone (length labels.old) (capacity_of (Q.Queue.contents queue.old)) source K.Delay.zero None) (labelling labels.new parents.new (Q.Queue.contents queue.new)) }
{
    // No call may allocate: the links lie in fixed arrays, and so do labels and parents in the callers.
    let mut heads = [None; MAX_NODES];
    let mut nexts = [None; MAX_EDGES];
    let network = Network::new(rules, weights, &mut heads, &mut nexts);
    start_alone(source, K::zero(), None, labels, parents, queue);
    network.search(labels, parents, queue);
}
