//! What it is that nothing is left to rewrite, in a graph and in an image.
#![tactic(auto)]

mod laws;

pub use laws::{exact_masks_agree, pairs_have_to_be_whole, rest_is_thorough, rows_hold};
