// Rules between the events of a fill, and the answers that calls about them give.

#![tactic(auto)]

pub mod bounds;
pub mod faults;
pub mod records;
pub mod refusals;
pub mod theory;
pub mod times;

pub use faults::{Fault, Layer};
pub use records::{EventNumber, Rule, RuleNumber};
pub use refusals::Refusal;
pub use times::meets;
