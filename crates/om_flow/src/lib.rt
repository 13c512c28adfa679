//! Two solvers of dataflow equations over numbered blocks, by worklists: what r29, the register of the global pointer, holds
//! at the start of each block, and the registers that may be read from there on. Both give what walks over the blocks do,
//! and no more: the least solution.
//!
//! All blocks that jump by a register go to one more block, the hub, and from it to each landing place: an edge for each
//! of them, and not for each pair.
#![tactic(auto)]

mod chains;
pub mod facts;
pub mod masks;
mod parts;

pub use parts::{Fact, Flow, FlowBlock, Transfer};
