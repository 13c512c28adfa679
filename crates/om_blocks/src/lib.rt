//! The blocks of a graph as a flow, by number: what the solvers of om_flow find of the flow holds of the graph's blocks. And
//! what a block does, where control goes from its end and where jumps by a register may land, for checks without memory.
#![tactic(auto)]

mod block_tests;
mod effects;
mod exits;
mod filling;
mod flows;
mod landing;
mod laws;
mod unions;

pub use block_tests::{BlockTest, passes_at_landings};
pub use effects::{Effect, effect_of, last_reads, last_writes, reads_of, transfer_of, writes_of};
pub use exits::{Exit, exit_of, fall_of};
pub use flows::flow_of;
pub use landing::{code_of, link_of};
pub use laws::{flows_tell, graphs_have_flows};
pub use unions::{BlockMask, union_at_landings};
