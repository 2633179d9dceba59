// The search: take an event with the least key and see to the rules that leave it, until nothing waits.
// Labels, parents and the queue stay parameters of their own: the caller lends them, and reads what is left in them.
ghost use Rattle.std.specs.Prelude.{◌≡◌, ℕ, ◌<◌, ◌≤◌, List, length, Some, None, slice_index_or};
ghost use Rattle.queues.specs.Contents.{capacity_of};
ghost use Rattle.search.specs.Networks.{labelling, Labelling};
ghost use Rattle.search.specs.Meanings.{network_of};
ghost use Rattle.search.specs.Searches.{Fitting, Exact, Ready, Searched};
ghost use Rattle.search.specs.Progress.{betters, improved, Adds, Midway, Leaving, Turned};

use crate::Network;
use delays::Delay;
use queues::Queue;
use rules::EventNumber;

// Gives the event the key for its label, by the parent, and has it wait under it, where the key is better than its label.
fn improve<K: Delay, Q: Queue<K>>(
    event: EventNumber,
    parent: u16,
    key: K,
    labels: &mut [Option<K>],
    parents: &mut [Option<u16>],
    queue: &mut Q,
)
    requires labels { event < length labels.old }
    requires parents { event < length parents.old }
    requires capacity { event < capacity_of (Q.Queue.contents queue.old) }
    ensures { labelling labels.new parents.new (Q.Queue.contents queue.new) ≡ improved K.Delay.less (labelling labels.old parents.old (Q.Queue.contents queue.old)) event parent key }
{
    let at = event as usize;
    if labels[at].is_none_or(|old| key.below(old)) {
        labels[at] = Some(key);
        parents[at] = Some(parent);
        let _ = queue.offer(event, key);
    }
}

impl<'a, K: Delay> Network<'a, K> {
    // Sees to every rule that leaves the event, which was taken with the key.
    fn relax<Q: Queue<K>>(
        &self,
        event: EventNumber,
        key: K,
        labels: &mut [Option<K>],
        parents: &mut [Option<u16>],
        queue: &mut Q,
    )
        requires event { event < length labels.old }
        requires heads { length labels.old ≤ length self.now.links.heads.now }
        requires fitting { Fitting (network_of self.now) (labelling labels.old parents.old (Q.Queue.contents queue.old)) }
        requires adds { Adds (network_of self.now) key }
        ensures { (start : Labelling K) (taken : List ℕ) → Leaving (network_of self.now) start event key (slice_index_or self.now.links.heads.now event None) taken (labelling labels.old parents.old (Q.Queue.contents queue.old)) → Midway (network_of self.now) start event None taken (labelling labels.new parents.new (Q.Queue.contents queue.new)) }
    {
        for place in self.links.places(event as usize) {
            let second = self.rules[place as usize].second;
            let reached = key.sum(self.weights[place as usize]);
            improve(second, place, reached, labels, parents, queue);
        }
    }

    // Takes an event with the least key and sees to the rules that leave it; false where nothing waits.
    fn turn<Q: Queue<K>>(
        &self,
        labels: &mut [Option<K>],
        parents: &mut [Option<u16>],
        queue: &mut Q,
    ) -> bool
        requires heads { length labels.old ≤ length self.now.links.heads.now }
        requires fitting { Fitting (network_of self.now) (labelling labels.old parents.old (Q.Queue.contents queue.old)) }
        requires adds { (v : ℕ) (k : K) → slice_index_or (Q.Queue.contents queue.old).waiting v None ≡ Some k → (v < length labels.old) × Adds (network_of self.now) k }
        ensures { (start : Labelling K) (taken : List ℕ) → Midway (network_of self.now) start 0 None taken (labelling labels.old parents.old (Q.Queue.contents queue.old)) → Turned (network_of self.now) start taken (labelling labels.new parents.new (Q.Queue.contents queue.new)) result }
    {
        match queue.take() {
            None => false,
            Some(first) => {
                self.relax(first.0, first.1, labels, parents, queue);
                true
            }
        }
    }

    // Searches from the waiting events until none waits.
    pub fn search<Q: Queue<K>>(
        &self,
        labels: &mut [Option<K>],
        parents: &mut [Option<u16>],
        queue: &mut Q,
    )
        requires heads { length labels.old ≤ length self.now.links.heads.now }
        requires fitting { Fitting (network_of self.now) (labelling labels.old parents.old (Q.Queue.contents queue.old)) }
        requires ready { Ready (network_of self.now) (labelling labels.old parents.old (Q.Queue.contents queue.old)) }
        requires exact { Exact (network_of self.now) (labelling labels.old parents.old (Q.Queue.contents queue.old)) }
        ensures { Searched (network_of self.now) (labelling labels.old parents.old (Q.Queue.contents queue.old)) (labelling labels.new parents.new (Q.Queue.contents queue.new)) }
    {
        while self.turn(labels, parents, queue) {}
    }
}
