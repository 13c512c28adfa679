//! Alpha integer arithmetic (Alpha Architecture Handbook, chapter 4): the 61 operations and the eight tests,
//! each by a table that holds for every input, and the small enums that several crates share.
#![tactic(auto)]

mod compute;
mod op;

pub use compute::{alu, holds, overflows};
pub use op::{AluOp, Cmp, Cond, Level, Scale, Size, TrapKind, Wide, Width};
