// Alpha object files: their parts, the rules that they keep, and how they are read.
#![tactic(auto)]

mod claimed;
pub mod entry;
mod errors;
mod faults;
mod file_parts;
mod flags;
mod heads;
pub mod kinds;
mod lituse;
mod making;
mod object;
mod origin;
mod parts;
mod passes;
mod rules;
mod sections;
mod shared;
mod symbols;
mod tables;
mod text;
pub mod words;

pub use errors::{MakeErr, ObjErr};
pub use object::{Object, read_object};
pub use parts::{Parts, Section};
