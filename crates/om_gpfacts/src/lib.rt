//! What r29, the register of the global pointer, holds at the start of each block of a graph: the global pointer of one table
//! on each walk, or not. Code that sets it again where it holds already can go.
#![tactic(auto)]

mod checks;
mod facts;
mod laws;
mod walks;

pub use checks::check;
pub use facts::{GpFacts, solve};
pub use laws::{facts_are_known, facts_by_label_are_exact};
pub use om_flow::Fact;
pub use walks::{fact_before_last, fact_behind_op, is_fact};
