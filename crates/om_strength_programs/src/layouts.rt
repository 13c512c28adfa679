// Callers of om_layout.
ghost use Rattle.std.specs.Prelude.{◌≡◌, IfOk};
ghost use Rattle.om_graph.specs.OfProgram.{IsGraphOf};
ghost use Rattle.om_layout.specs.Layout.{position_of, region_at, table_at, gp_of, slot_at};
ghost use Rattle.om_layout.specs.Limits.{IsWithinLimits};
ghost use Rattle.om_layout.specs.Order.{IsLayoutOf};

use om_graph::Graph;
use om_io::NoMemory;
use om_layout::{Layout, lay};
use om_prog::Program;
use om_value::{Place, Region, Target};
use std::alloc::Global;

/// The layout of one of two graphs of a program.
pub fn layout(
    alloc: Global,
    graph: &Graph,
    other: &Graph,
    program: &Program,
) -> Result<Layout, NoMemory>
    requires graph { IsGraphOf program.now graph.now }
    requires other { IsGraphOf program.now other.now }
    requires limits { IsWithinLimits program.now }
    ensures { IfOk result (λ l. IsLayoutOf program.now graph.now l) }
{
    lay(alloc, graph, program)
}

/// The number of the image word at a place.
pub fn position(layout: &Layout, place: Place) -> u32
    ensures { result ≡ position_of layout.now place }
{
    layout.position(place)
}

/// The number of an object's table.
pub fn table(layout: &Layout, obj: u32) -> u32
    ensures { result ≡ table_at layout.now obj }
{
    layout.table(obj)
}

/// The global pointer of an object.
pub fn gp(layout: &Layout, obj: u32) -> u64
    ensures { result ≡ gp_of layout.now obj }
{
    layout.gp(obj)
}

/// The address of a region.
pub fn region(layout: &Layout, r: Region) -> u64
    ensures { result ≡ region_at layout.now r }
{
    layout.region(r)
}

/// The address of the slot of a target.
pub fn slot(layout: &Layout, table: u32, t: Target) -> Option<u64>
    ensures { result ≡ slot_at layout.now table t }
{
    layout.slot(table, t)
}
