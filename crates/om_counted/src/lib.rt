//! Which steps of a program's run an image counts, by its map and its text alone; what an image is to a program at each level
//! of linking, and that its runs are alike with the program's at counted steps.
#![tactic(auto)]

mod laws;

pub use laws::{counted_is_left_in, images_run};
