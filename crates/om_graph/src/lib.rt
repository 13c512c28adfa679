//! The graph of a program: blocks of words that passes rewrite in place; and in specs/ its run and what it is for a
//! pass to keep a program's meaning.
#![tactic(auto)]

mod graph;
mod ids;
mod laws;
mod op;
mod parts;
mod starts;

pub use graph::Graph;
pub use ids::{BlockId, OpId};
pub use laws::{
    checked_facts_hold, checked_masks_hold, graphs_of_programs, grouping_keeps_meaning,
    last_writers_by_places, lift_keeps_meaning, other_tables, passes_compose,
    runs_stay_in_kept_set, some_step_is_left_in,
};
pub use op::{Last, Op, OpKind};
