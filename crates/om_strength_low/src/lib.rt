// Callers that promise what the functions below promise: the wrong ones of `must-fail/` show what a caller can rely on. And the
// laws that two answers which meet a reader's clause are one, but for want of memory.
#![tactic(auto)]

mod alpha;
mod fields;
mod isa;
mod laws;
mod objects;
mod outside;
mod tables;
mod value;
mod words;

pub use alpha::{computed, is_below_zero, is_too_large};
pub use fields::{append_words, early_headers, headers};
pub use isa::{instruction, mask_read, target, word};
pub use laws::{objects_are_one, readers_are_one};
pub use objects::{file, made, object};
pub use outside::{load, load_from_memory, put, put_in_memory, read};
pub use tables::{early_entries, entries, symbols};
pub use value::{condition, moved, operation};
pub use words::command;
