// The entries of a heap, and what is written in them.
ghost use Rattle.std.specs.Prelude.{◌≡◌, ℕ, ◌<◌, ◌≤◌, length, slice_index, slice_index_or, slice_set};
ghost use Rattle.heaps.specs.HeapOrder.{keys, events, places, Positioned};

use delays::Delay;
use rules::EventNumber;

// As a place of the heap: an event and its key. As an event: its place in the heap.
#[derive(Clone, Copy)]
pub struct Entry<K> {
    pub(crate) event: EventNumber,
    pub(crate) place: u16,
    pub(crate) key: K,
}

impl<K: Delay> Entry<K> {
    // An entry to make a heap over; what it holds does not count.
    pub fn new() -> Entry<K>
        ensures { (result.event ≡ 0) × ((result.place ≡ 0) × (result.key ≡ K.Delay.zero)) }
    {
        Entry {
            event: 0,
            place: 0,
            key: K::zero(),
        }
    }
}

// Exchanges the events at two places, with their keys.
pub(crate) fn exchange<K: Delay>(entries: &mut [Entry<K>], i: usize, j: usize)
    requires within { (i < length entries.old) × (j < length entries.old) }
    requires small { length entries.old ≤ 65535 }
    requires known { (slice_index (events entries.old) i < length entries.old) × (slice_index (events entries.old) j < length entries.old) }
    ensures keyed { (d : K) → keys entries.new ≡ slice_set (slice_set (keys entries.old) i (slice_index_or (keys entries.old) j d)) j (slice_index_or (keys entries.old) i d) }
    ensures evented { events entries.new ≡ slice_set (slice_set (events entries.old) i (slice_index (events entries.old) j)) j (slice_index (events entries.old) i) }
    ensures placed { places entries.new ≡ slice_set (slice_set (places entries.old) (slice_index (events entries.old) j) i) (slice_index (events entries.old) i) j }
{
    // Field by field: a heap that copies whole entries here takes a tenth longer.
    let (event_i, key_i) = (entries[i].event, entries[i].key);
    let (event_j, key_j) = (entries[j].event, entries[j].key);
    entries[i].event = event_j;
    entries[i].key = key_j;
    entries[j].event = event_i;
    entries[j].key = key_i;
    entries[event_j as usize].place = i as u16;
    entries[event_i as usize].place = j as u16;
}

// Puts every event at the place of its number, whatever the entries held.
pub(crate) fn number_all<K: Delay>(entries: &mut [Entry<K>])
    requires { length entries.old ≤ 65535 }
    ensures { Positioned entries.new }
{
    for (i, entry) in entries.iter_mut().enumerate() {
        entry.event = i as u16;
        entry.place = i as u16;
    }
}
