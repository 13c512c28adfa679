//! A program before it has addresses: the words of its objects with what each stands for, its regions with their
//! initial content, and its entry; and in specs/ the symbolic machine that runs it.
#![tactic(auto)]

mod claims;
mod errors;
mod finding;
mod item;
mod items;
mod keys;
mod known;
mod laws;
mod making;
mod program;
mod region;
mod words;

pub use errors::ProgErr;
pub use item::{Field, Item, Role};
pub use laws::{
    codes_stay, effects_depend_on_reads, retabled_runs, same_words_same_run, steps_lead,
    words_write_their_registers,
};
pub use program::Program;
pub use region::RegionInit;
