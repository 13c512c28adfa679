// The object writer: the file that an object is written as.
#![tactic(auto)]

mod blocks;
mod places;
mod relocations;
mod round_trip;
mod sections;
mod symbols;
mod widths;
mod writing;

pub use round_trip::written_is_read;
pub use writing::write_object;
