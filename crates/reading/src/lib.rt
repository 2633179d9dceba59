// The rules of a book read into a list, and some of them chosen.

#![tactic(auto)]

pub mod choosing;
pub mod copying;

pub use choosing::select;
pub use copying::read_rules;
