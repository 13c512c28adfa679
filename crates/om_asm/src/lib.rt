//! The assembler: from a text to an object.
#![tactic(auto)]

mod cutting;
mod forms;
mod instructions;
mod laws;
mod numbers;
mod operands;
mod parsing;

pub use laws::texts_are_read;
pub use parsing::parse_instr;
