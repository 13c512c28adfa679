//! From a graph and its layout to an image whose map is true; in specs/ what a true map is, and that an image with one runs
//! as its graph does.
#![tactic(auto)]

mod data_part;
mod distances;
mod encoding;
mod filling;
mod highs;
mod lasts;
mod laws;
mod map_walk;
mod mapping;
mod numbering;
mod ops;
mod positions;
mod ranges;
mod text_part;
mod text_walk;
mod words;

pub use encoding::encode_image;
pub use laws::{
    counted_gives_headline, fits_in_every_layout, follows_and_runs, lifted_images_run,
    linked_images_run, lockstep_gives_headline, reached_branches_fit, true_maps_are_valid,
    true_maps_run, turned_words_run, worked_image_runs,
};
