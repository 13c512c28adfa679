//! Lists of values in one arena: each value stands under an id that stays its own until it is taken out, and
//! an insertion or a removal at a known id takes constant time.
//!
//! An arena is seen as its lists, each as its ids and values in order, and as a number of insertions that need
//! no memory. Each call changes that view by exactly its edit.
#![tactic(auto)]

mod arena;
mod causes;
mod ids;
mod keys;
mod links;
mod slots;

pub use arena::Arena;
pub use causes::NoMemory;
pub use ids::{Id, ListId};
