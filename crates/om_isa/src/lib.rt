//! Alpha instructions: the words, their fields, and what each reads and writes.
#![tactic(auto)]

mod codes;
mod fields;
mod instr;
mod registers;
mod target;
mod words;

pub use fields::{Disp, Hint, Reg};
pub use instr::{Access, BrOp, Instr, JumpOp, MemOp, MiscOp, Opnd};
pub use registers::{access_kind, masks_are_lists, reads, writes};
pub use target::branch_target;
pub use words::{decode, encode, words_are_read};
