//! Uses of results within blocks, and how often the address of each target is loaded.
//!
//! For each block its ops are kept in order with the registers that they read and write, and for each op where it stands
//! there. The reader of a result is the next op that reads its register before the register is written again.
#![tactic(auto)]

mod blocks;
mod laws;
mod scans;
mod tables;
mod uses;

pub use laws::{edits_stay_near, readers_are_local_uses};
pub use uses::Uses;
