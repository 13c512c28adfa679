//! The symbolic machine: it runs a program before it has addresses, with values in its registers and cells in its regions.
//!
//! A run is that of the definitions in the specs of om_prog: after n steps that answered no fault and no want of memory,
//! the state is the definition's after n steps, and each answer is that state's. No address is a number: where a step
//! would show one, the run observes and ends there.
#![tactic(auto)]

mod actions;
mod cells;
mod laws;
mod machine;
mod memory;
mod requests;
mod starting;
mod streams;

pub use laws::{runs_are_steps, runs_only_write};
pub use machine::{SymRun, SymStep};
