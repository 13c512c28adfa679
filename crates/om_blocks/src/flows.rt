//! The flow of a graph.
ghost use Rattle.std.specs.Prelude.{◌≡◌, ◌<◌, ℕ, IfOk, true};
ghost use Rattle.om_graph.specs.View.{is_live_block};
ghost use Rattle.om_graph.specs.Held.{IsGraph};
ghost use Rattle.om_graph.specs.Run.{entry_of};
ghost use Rattle.om_blocks.specs.IsFlow.{HasFlow, IsFlow};
ghost use Rattle.om_blocks.specs.Filling.{number_at_label};

use crate::filling::{filled, number_at};
use crate::landing::lands_of;
use om_flow::Flow;
use om_graph::Graph;
use om_io::NoMemory;
use std::alloc::Global;

// The number of the block at the entry, or of none.
fn entry_number(g: &Graph, outside: u32) -> u32
    requires graph { IsGraph g.now }
    requires rows { (id : ℕ) → is_live_block g.now id ≡ true → id < outside }
    ensures { result ≡ number_at_label g.now outside (entry_of g.now.roots) }
{
    number_at(g, g.roots()[0], outside)
}

/// The flow of a graph: where control goes between its kept blocks, by number, and what each does to the registers. It reads
/// each word once. `NoMemory` comes for want of memory, and where the graph was made with more than 4 * 10^9 blocks, whose
/// numbers do not fit.
pub fn flow_of(alloc: Global, g: &Graph) -> Result<Flow, NoMemory>
    requires { HasFlow g.now }
    ensures { IfOk result (λ f. IsFlow g.now f) }
{
    g.is_graph();
    let rows = g.rows();
    if rows > 4_000_000_000 {
        return Err(NoMemory);
    }
    let outside = rows as u32;
    Ok(Flow {
        blocks: filled(alloc, g, outside)?,
        lands: lands_of(alloc, g)?,
        entry: entry_number(g, outside),
    })
}
