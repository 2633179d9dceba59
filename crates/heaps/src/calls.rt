// The calls of a heap.
ghost use Rattle.std.specs.Prelude.{◌≡◌, min, length};
ghost use Rattle.queues.specs.Contents.{empty};
ghost use Rattle.heaps.specs.Meanings.{heap_contents};

use crate::Heap;
use crate::entries::Entry;
use crate::trees::Tree;
use delays::Delay;
use queues::Queue;
use rules::{EventNumber, Refusal};

impl<'a, K: Delay> Heap<'a, K> {
    // An empty heap with an event for each entry, up to 65,535; what the entries held is let go.
    pub fn new(entries: &'a mut [Entry<K>]) -> Heap<'a, K>
        ensures { heap_contents result ≡ empty (min 65535 (length entries.old)) }
    {
        let n = entries.len().min(65535);
        Heap {
            tree: Tree::over(&mut entries[..n]),
            count: 0,
        }
    }
}

impl<'a, K: Delay> Queue<K> for Heap<'a, K> {
    ghost contents = { heap_contents };

    fn capacity(&self) -> u16 {
        self.tree.entries.len() as u16
    }

    fn count(&self) -> u32 {
        self.count
    }

    fn clear(&mut self) {
        self.tree.len = 0;
        self.count = 0;
    }

    fn offer(&mut self, event: EventNumber, key: K) -> Result<(), Refusal> {
        if event as usize >= self.tree.entries.len() {
            return Err(Refusal::OfferPast);
        }
        self.tree.offer(event, key);
        Ok(())
    }

    fn take(&mut self) -> Option<(EventNumber, K)> {
        if self.tree.len == 0 {
            return None;
        }
        let taken = self.tree.take_root();
        self.count = self.count.saturating_add(1);
        Some(taken)
    }
}
