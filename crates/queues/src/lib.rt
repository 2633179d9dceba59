// Queues of events, each waiting under a key, from which an event with the least key is taken.

#![tactic(auto)]

ghost use Rattle.std.specs.Prelude.{◌≡◌};
ghost use Rattle.rules.specs.Questions.{Answered, outcome};
ghost use Rattle.queues.specs.Contents.{Contents, capacity_of, empty, offer_questions, left_by_offer, Least, left_by_take};

pub mod slots;
pub mod sorting;
pub mod tables;

use delays::Delay;
use rules::{EventNumber, Refusal};
pub use slots::Slot;
pub use sorting::sort_keys;
pub use tables::Table;

// A queue of events that wait under keys of the kind K.
// Where a queue rests on an order of its own, its type states it, so that the order stands in every value.
pub trait Queue<K: Delay> {
    // What the queue means.
    ghost contents: { Self → Contents K };

    // How many events can wait: those with numbers below this.
    fn capacity(&self) -> u16
        ensures { result ≡ capacity_of (contents self.now) };

    // How many were taken since the queue was emptied, held at 4,294,967,295.
    fn count(&self) -> u32
        ensures { result ≡ (contents self.now).count };

    // Lets every key and the count go, whatever state the queue is in.
    fn clear(&mut self)
        ensures { contents self.new ≡ empty (capacity_of (contents self.old)) };

    // Sets the event's key, if none or a larger one waits; refused exactly when the event is not below the capacity.
    fn offer(&mut self, event: EventNumber, key: K) -> Result<(), Refusal>
        ensures answered { Answered (offer_questions (contents self.old) event) (outcome result) }
        ensures left { contents self.new ≡ left_by_offer K.Delay.less (contents self.old) event key result };

    // Removes an event with the least key and answers both; none exactly when nothing waits.
    fn take(&mut self) -> Option<(EventNumber, K)>
        ensures least { Least K.Delay.less (contents self.old).waiting result }
        ensures left { contents self.new ≡ left_by_take (contents self.old) result };
}
