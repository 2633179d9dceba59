// A scanned table over lent slots.
ghost use Rattle.std.specs.Prelude.{◌≤◌, length};

use crate::Queue;
use crate::slots::{Slot, least};
use delays::Delay;
use rules::{EventNumber, Refusal};

#[derive(Drop)]
pub struct Table<'a, K> {
    slots: &'a mut [Slot<K>],
    count: u32,
    ghost small: { length slots.now ≤ 65535 },
}

impl<'a, K: Delay> Table<'a, K> {
    ghost use Rattle.std.specs.Prelude.{◌≡◌, min, length};
    ghost use Rattle.queues.specs.Contents.{empty};
    ghost use Rattle.queues.specs.Meanings.{table_contents};

    // An empty table with an event for each slot, up to 65,535; what the slots held is let go.
    pub fn new(slots: &'a mut [Slot<K>]) -> Table<'a, K>
        ensures { table_contents result ≡ empty (min 65535 (length slots.old)) }
    {
        let n = slots.len().min(65535);
        let mut table = Table {
            slots: &mut slots[..n],
            count: 0,
        };
        table.clear();
        table
    }
}

impl<'a, K: Delay> Queue<K> for Table<'a, K> {
    ghost use Rattle.queues.specs.Meanings.{table_contents};

    ghost contents = { table_contents };

    fn capacity(&self) -> u16 {
        self.slots.len() as u16
    }

    fn count(&self) -> u32 {
        self.count
    }

    fn clear(&mut self) {
        self.slots.fill(Slot { key: None });
        self.count = 0;
    }

    fn offer(&mut self, event: EventNumber, key: K) -> Result<(), Refusal> {
        if event as usize >= self.slots.len() {
            return Err(Refusal::OfferPast);
        }
        let slots = &mut *self.slots;
        slots[event as usize].offer(key);
        Ok(())
    }

    fn take(&mut self) -> Option<(EventNumber, K)> {
        let slots = &mut *self.slots;
        let (event, key) = least(slots)?;
        slots[event as usize].key = None;
        self.count = self.count.saturating_add(1);
        Some((event, key))
    }
}
