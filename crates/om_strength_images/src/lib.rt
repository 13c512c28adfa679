// Callers that promise what the functions below promise: the wrong ones of `must-fail/` show what a caller can rely on. And the
// laws that two answers which meet a clause are one.
#![tactic(auto)]

mod encoding;
mod images;
mod laws;
mod linking;
mod listings;
mod machines;

pub use encoding::encoded;
pub use images::{image, image_file};
pub use laws::{images_are_one, runs_are_one};
pub use linking::linked;
pub use listings::listed;
pub use machines::{loaded, place, run, stepped};
