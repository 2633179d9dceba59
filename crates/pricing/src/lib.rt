// Prices under which no reduced limit is negative, or a negative ring.
// Prices, the queue and the list for rings are lent one by one: a struct of three lists that are written would serve for one call, and be no plainer.

#![tactic(auto)]

pub mod feasible;
pub mod relaxing;
pub mod repairing;
pub mod rings;

pub use feasible::prices;
pub use repairing::repair;
pub use rings::Ring;
