// The search from one event, and what its labels tell. Measures, parents and the queue are lent one by one: the caller reads each by itself.
ghost use Rattle.std.specs.Prelude.{◌≡◌, ℕ, ◌<◌, ◌≤◌, length, None, IfSome, slice_index_or};
ghost use Rattle.rules.specs.Meets.{at};
ghost use Rattle.queues.specs.Contents.{capacity_of};
ghost use Rattle.leads.specs.Labels.{measured, Fits};
ghost use Rattle.leads.specs.Counts.{Told, Parents};
ghost use Rattle.leads.specs.Tellings.{CountsReached};

use crate::counting::Counting;
use crate::priced::PricedRules;
use crate::records::{Key, Measure};
use crate::sources::search_from;
use delays::Delay;
use queues::Queue;
use settling::{MAX_EDGES, MAX_NODES};

impl PricedRules<'_> {
    // What the label of an event tells: its milliseconds with the event's price added back and the source's taken off, and its count.
    fn measure_of(&self, label: Option<Key>, event: usize) -> Option<Measure>
        requires event { event < length self.now.prices.now }
        requires fits { IfSome label Fits }
        ensures { result ≡ measured label (at self.now.prices.now event) (at self.now.prices.now self.now.source) }
    {
        let at_event = self.prices[event];
        let at_source = self.prices[self.source as usize];
        label.map(|key| Measure {
            distance: key.first.0 + at_event - at_source,
            count: key.second.0 as u16,
        })
    }

    // Writes what each label tells.
    fn write_measures(&self, labels: &[Option<Key>], measures: &mut [Option<Measure>])
        requires labels { length labels.now ≡ length self.now.prices.now }
        requires measures { length measures.old ≡ length self.now.prices.now }
        requires fits { (v : ℕ) → IfSome (slice_index_or labels.now v None) Fits }
        ensures { (v : ℕ) → slice_index_or measures.new v None ≡ measured (slice_index_or labels.now v None) (at self.now.prices.now v) (at self.now.prices.now self.now.source) }
    {
        // By index: a proof does not see what a zip over `iter_mut` writes.
        for (event, measure) in measures.iter_mut().enumerate() {
            *measure = self.measure_of(labels[event], event);
        }
    }

    // Writes for each event the distance from the source and the least count of a shortest chain, with the parents by which such chains lead there.
    pub(crate) fn measure<C: Counting, Q: Queue<Key>>(
        &self,
        counting: C,
        measures: &mut [Option<Measure>],
        parents: &mut [Option<u16>],
        queue: &mut Q,
    )
        requires measures { length measures.old ≡ length self.now.prices.now }
        requires parents { length parents.old ≡ length self.now.prices.now }
        requires capacity { length self.now.prices.now ≤ capacity_of (Q.Queue.contents queue.old) }
        ensures reached { CountsReached self.now.rules.now self.now.source (Q.Queue.contents queue.old) (Q.Queue.contents queue.new) }
        ensures told { (v : ℕ) → Told C.counts self.now.rules.now self.now.source v (slice_index_or measures.new v None) }
        ensures parents { Parents C.counts self.now.rules.now self.now.source parents.new }
    {
        let mut weights = [Key::zero(); MAX_EDGES];
        let mut labels = [None; MAX_NODES];
        let labels = &mut labels[..self.prices.len()];
        self.weigh(counting, &mut weights);
        search_from(self.rules, &weights, self.source, labels, parents, queue);
        self.write_measures(labels, measures);
    }
}
