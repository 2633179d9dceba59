// Labels, parents and a queue for a search to start from, each lent by itself, as to the search.
ghost use Rattle.std.specs.Prelude.{◌≡◌, ◌<◌, ◌≤◌, false, length, Some, None, slice_index_or, slice_set};
ghost use Rattle.rules.specs.Bounds.{max_count};
ghost use Rattle.queues.specs.Contents.{capacity_of, holds};
ghost use Rattle.search.specs.Networks.{labelling};
ghost use Rattle.search.specs.Beginnings.{alone, all_waiting, Startable};

use delays::Delay;
use queues::Queue;
use rules::EventNumber;

// Has the event wait under its label, if it has one.
fn offer_label<K: Delay, Q: Queue<K>>(event: EventNumber, label: Option<K>, queue: &mut Q)
    requires capacity { event < capacity_of (Q.Queue.contents queue.old) }
    requires absent { slice_index_or (Q.Queue.contents queue.old).waiting event None ≡ None }
    ensures { Q.Queue.contents queue.new ≡ holds (slice_set (Q.Queue.contents queue.old).waiting event label) (Q.Queue.contents queue.old).count }
{
    if let Some(key) = label {
        let _ = queue.offer(event, key);
    }
}

// Gives every event the label, but one event the key, under which it waits alone; no event has a parent.
pub fn start_alone<K: Delay, Q: Queue<K>>(
    event: EventNumber,
    key: K,
    label: Option<K>,
    labels: &mut [Option<K>],
    parents: &mut [Option<u16>],
    queue: &mut Q,
)
    requires event { event < length labels.old }
    requires parents { length parents.old ≡ length labels.old }
    requires capacity { length labels.old ≤ capacity_of (Q.Queue.contents queue.old) }
    ensures started { labelling labels.new parents.new (Q.Queue.contents queue.new) ≡ alone (length labels.old) (capacity_of (Q.Queue.contents queue.old)) event key label }
    ensures ready { ((z : K) → label ≡ Some z → K.Delay.less z key ≡ false) → Startable K.Delay (labelling labels.new parents.new (Q.Queue.contents queue.new)) }
{
    // A kind of delay promises nothing of `clone`, which `fill` calls.
    labels.fill_with(move || label);
    labels[event as usize] = Some(key);
    parents.fill(None);
    queue.clear();
    offer_label(event, Some(key), queue);
}

// Has every labelled event wait under its label; no event has a parent.
pub fn start_labelled<K: Delay, Q: Queue<K>>(
    labels: &[Option<K>],
    parents: &mut [Option<u16>],
    queue: &mut Q,
)
    requires few { length labels.now ≤ max_count }
    requires parents { length parents.old ≡ length labels.now }
    requires capacity { length labels.now ≤ capacity_of (Q.Queue.contents queue.old) }
    ensures started { labelling labels.now parents.new (Q.Queue.contents queue.new) ≡ all_waiting labels.now (capacity_of (Q.Queue.contents queue.old)) }
    ensures ready { Startable K.Delay (labelling labels.now parents.new (Q.Queue.contents queue.new)) }
{
    parents.fill(None);
    queue.clear();
    for (event, label) in labels.iter().enumerate() {
        offer_label(event as u16, *label, queue);
    }
}
