// A caller of om_lift.
ghost use Rattle.std.specs.Prelude.{IfOk};
ghost use Rattle.om_graph.specs.Lifted.{IsLifted};

use om_graph::Graph;
use om_io::NoMemory;
use om_lift::lift_program;
use om_prog::Program;
use std::alloc::Global;

/// The graph of one of two programs.
pub fn graph(alloc: Global, p: &Program, other: &Program) -> Result<Graph, NoMemory>
    ensures { IfOk result (λ g. IsLifted p.now g) }
{
    let graph = lift_program(alloc, p)?;
    Ok(graph)
}
