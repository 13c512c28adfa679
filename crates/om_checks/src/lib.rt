//! Checks that survive a step: what solvers found of a graph, facts on r29 and masks of registers, still passes the check
//! after an edit, or may not.
#![tactic(auto)]

mod laws;

pub use laws::{checks_may_fail, facts_stay, masks_stay};
