// Keys of a search, and what is told of an event.
use delays::{Count, Millis, Pair};

// Keys of a search: milliseconds, and where these are equal a count.
pub type Key = Pair<Millis, Count>;

// The distance to an event, and the least count that a shortest chain there has.
#[derive(Clone, Copy, PartialEq, Eq, Debug)]
pub struct Measure {
    pub distance: i64,
    pub count: u16,
}
