// The entries of a table: one slot for each event.
ghost use Rattle.std.specs.Prelude.{◌≡◌, ◌≤◌, length, Some, None};
ghost use Rattle.queues.specs.Contents.{Least, lesser};
ghost use Rattle.queues.specs.SlotKeys.{slot_keys};

use delays::Delay;
use rules::EventNumber;

// The key under which an event waits, if it does.
#[derive(Clone, Copy)]
pub struct Slot<K> {
    pub(crate) key: Option<K>,
}

impl<K: Delay> Slot<K> {
    // A slot to make a table over; what it holds does not count.
    pub fn new() -> Slot<K>
        ensures { result.key ≡ None }
    {
        Slot { key: None }
    }

    // Lowers the key, or sets it where none waits.
    pub(crate) fn offer(&mut self, key: K)
        ensures { self.new.key ≡ Some (lesser K.Delay.less self.old.key key) }
    {
        match self.key {
            Some(old) if !key.below(old) => {}
            _ => self.key = Some(key),
        }
    }
}

// An event with the least key, by a look at every slot.
pub(crate) fn least<K: Delay>(slots: &[Slot<K>]) -> Option<(EventNumber, K)>
    requires { length slots.now ≤ 65535 }
    ensures { Least K.Delay.less (slot_keys slots.now) result }
{
    // A kind of delay has `below` and owes no `Ord`, which `min_by_key` would ask for.
    let mut best: Option<(EventNumber, K)> = None;
    for (event, slot) in slots.iter().enumerate() {
        if let Some(key) = slot.key
            && best.is_none_or(|(_, least)| key.below(least))
        {
            best = Some((event as u16, key));
        }
    }
    best
}
