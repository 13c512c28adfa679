//! The passes over what no run needs: blocks that no run may come to, and words whose results are dead.
#![tactic(auto)]

mod following;
mod kept;
mod masks;
mod pruning;
mod regions;
mod sources;
mod words;

pub use kept::drop_unkept;
pub use pruning::prune;
pub use words::delete_dead;
