// Distances from one event, the fewest rules or limits below 0 of shortest chains, the chains themselves, and the events reached.

#![tactic(auto)]

pub mod calls;
pub mod chains;
pub mod counting;
pub mod measuring;
pub mod priced;
pub mod reaching;
pub mod records;
pub mod sources;
pub mod weighing;

pub use chains::chain_to;
pub use priced::PricedRules;
pub use reaching::reach;
pub use records::{Key, Measure};
pub use settling::{MAX_EDGES, MAX_NODES};
