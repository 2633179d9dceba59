// Distances from a source under prices, with the fewest rules or the fewest limits below 0.
ghost use Rattle.std.specs.Prelude.{◌≡◌, ◌≤◌, length};
ghost use Rattle.queues.specs.Contents.{capacity_of};
ghost use Rattle.leads.specs.Tellings.{LeadsTold, CountsTold, LeadParents, CountsReached};

use crate::counting::{BelowZero, EachRule};
use crate::priced::PricedRules;
use crate::records::{Key, Measure};
use queues::Queue;
use settling::MAX_NODES;

impl PricedRules<'_> {
    // Writes for each event its distance from the source and the fewest rules of a shortest chain, and the parents by which such chains lead there.
    pub fn lead<Q: Queue<Key>>(
        &self,
        measures: &mut [Option<Measure>],
        parents: &mut [Option<u16>],
        queue: &mut Q,
    )
        requires measures { length measures.old ≡ length self.now.prices.now }
        requires parents { length parents.old ≡ length self.now.prices.now }
        requires capacity { length self.now.prices.now ≤ capacity_of (Q.Queue.contents queue.old) }
        ensures reached { CountsReached self.now.rules.now self.now.source (Q.Queue.contents queue.old) (Q.Queue.contents queue.new) }
        ensures told { LeadsTold self.now.rules.now self.now.source measures.new }
        ensures parents { LeadParents self.now.rules.now self.now.source parents.new }
    {
        self.measure(EachRule, measures, parents, queue);
    }

    // Writes for each event its distance from the source and the fewest limits below 0 of a shortest chain.
    pub fn counted<Q: Queue<Key>>(&self, measures: &mut [Option<Measure>], queue: &mut Q)
        requires measures { length measures.old ≡ length self.now.prices.now }
        requires capacity { length self.now.prices.now ≤ capacity_of (Q.Queue.contents queue.old) }
        ensures reached { CountsReached self.now.rules.now self.now.source (Q.Queue.contents queue.old) (Q.Queue.contents queue.new) }
        ensures told { CountsTold self.now.rules.now self.now.source measures.new }
    {
        let mut parents = [None; MAX_NODES];
        let parents = &mut parents[..self.prices.len()];
        self.measure(BelowZero, measures, parents, queue);
    }
}
