//! Symbolic values: numbers, pointers into regions, places in code, and the values that global address tables
//! are reached by; and the operations that have a meaning on them whatever the addresses are.
#![tactic(auto)]

mod kinds;
mod lifting;
mod rules;
mod same;
mod value;

pub use lifting::{lift, lift_add, lift_cond};
pub use value::{Place, Region, Target, Value};
