//! The graph of a program, with all of its words.
#![tactic(auto)]

mod landing;
mod lifting;
mod marks;
mod places;
mod roots;
mod words;

pub use lifting::lift_program;
