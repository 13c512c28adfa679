//! Linking: from objects to an image of their program, and the bytes of its file.
#![tactic(auto)]

mod laws;
mod linking;
mod rounds;

pub use laws::{linked_images_run, one_plain_image};
pub use linking::{LinkErr, Linked, link};
