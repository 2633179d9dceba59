// Settled times, from prices under which no reduced limit is negative.

#![tactic(auto)]

pub mod loosened;
pub mod times;

pub use loosened::Loosened;
pub use times::{raise_all, settle};

// There is room for so many events and rules, a few more than a book has.
pub const MAX_NODES: usize = 1_032;

pub const MAX_EDGES: usize = 8_192;
