//! Laws of the operations on symbolic values: the rules by which they have a value agree with each other.
#![tactic(auto)]

mod laws;

pub use laws::rules_agree;
