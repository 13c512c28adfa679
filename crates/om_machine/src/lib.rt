//! The numeric machine: it runs an image, with numbers in its registers and bytes at addresses.
//!
//! A run is that of the definitions in the specs of om_image: after n steps that answered no fault, the machine's
//! state is the definition's after n steps, and each answer is that state's. A step takes no memory.
#![tactic(auto)]

mod actions;
mod laws;
mod loading;
mod machine;
mod memory;
mod requests;
mod streams;

pub use laws::runs_only_write;
pub use machine::{Machine, Step};
