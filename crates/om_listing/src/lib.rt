//! The listing of an image: a line for each source word that was changed or is gone, and the totals.
#![tactic(auto)]

mod lines;
mod listing;
pub mod names;
mod page;
mod sending;
mod texts;

pub use listing::list;
