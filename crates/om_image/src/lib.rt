// Images of programs for Alpha, with the map that says where each word, table and region of the source went.
#![tactic(auto)]

mod errors;
mod head_rules;
mod image;
mod map;
mod map_reading;
mod map_rules;
mod map_writing;
mod part;
mod reading;
mod round_trip;
mod shape;
mod widths;
mod writing;

pub use errors::ImageErr;
pub use image::Image;
pub use map::{Map, MapObj, MapRegion, MapTable, MapWord, Place, Region, Target};
pub use reading::read_image;
pub use round_trip::{unbroken_is_valid, written_is_read};
pub use writing::write_image;
