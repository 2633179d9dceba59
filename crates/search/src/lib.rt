// Searches along rules with weights, from labelled events that wait in a queue, and the chains that they find.

#![tactic(auto)]

pub mod networks;
pub mod searching;
pub mod starts;
pub mod tracing;

pub use networks::{Network, link_rules};
pub use starts::{start_alone, start_labelled};
pub use tracing::trace;
