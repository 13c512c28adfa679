//! The pass over addresses.
ghost use Rattle.std.specs.Prelude.{◌≡◌, false, IfOk, OnErr};
ghost use Rattle.om_passes.specs.Passed.{IsOfAProgram};
ghost use Rattle.om_addr.specs.Whole.{IsWhole, IsAddressDone, IsStopped};

use crate::idle::take_idle;
use crate::loads::either;
use crate::reduction::reduce_near;
use crate::splitting::split_all;
use om_graph::Graph;
use om_io::NoMemory;
use om_layout::Layout;
use om_live::{outs_of, solve};
use std::alloc::Global;

/// Reduces loads of addresses over a layout, by masks of the graph as it was at the start: base uses of near pointers take
/// the base of the load, byte uses take literals, near loads become LDA, and far loads LDAH with all of their uses. Whether
/// it changed anything. Each changed block is marked as touched. After `NoMemory` meaning is kept, and no more is said.
pub fn reduce(alloc: Global, g: &mut Graph, lay: &Layout) -> Result<bool, NoMemory>
    requires program { IsOfAProgram g.old }
    ensures passed { IfOk result (λ changed. IsWhole lay.now changed g.old g.new) }
    ensures nothing { IfOk result (λ changed. changed ≡ false → IsAddressDone lay.now g.new) }
    ensures stopped { OnErr result (IsStopped g.old g.new) }
{
    let live = solve(alloc, g)?;
    let near = reduce_near(g, lay);
    let outs = outs_of(alloc, g, &live)?;
    let far = split_all(g, lay, &live, &outs);
    let split = either(near, far);
    let idle = take_idle(g, lay);
    Ok(either(split, idle))
}
