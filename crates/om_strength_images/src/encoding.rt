// A caller of the encoder.
ghost use Rattle.std.specs.Prelude.{◌≡◌, ◌+◌, length, map, IfOk};
ghost use Rattle.om_graph.specs.Fits.{OpsFit};
ghost use Rattle.om_graph.specs.Kept.{Comes, KeptInBlocks};
ghost use Rattle.om_graph.specs.OfProgram.{IsGraphOf};
ghost use Rattle.om_layout.specs.Layout.{data_base, gp_of, address_of, code_at};
ghost use Rattle.om_layout.specs.Facts.{LaysOut};
ghost use Rattle.om_layout.specs.Limits.{IsWithinLimits};
ghost use Rattle.om_encode.specs.Data.{data_end, map_region};
ghost use Rattle.om_encode.specs.Fitting.{BranchesFit};

use om_encode::encode_image;
use om_graph::Graph;
use om_image::Image;
use om_io::NoMemory;
use om_layout::Layout;
use om_prog::Program;
use std::alloc::Global;

pub fn encoded(
    alloc: Global,
    graph: &Graph,
    program: &Program,
    layout: &Layout,
) -> Result<Image, NoMemory>
    requires graph { IsGraphOf program.now graph.now }
    requires kept { KeptInBlocks graph.now }
    requires layout { LaysOut program.now graph.now layout.now (Comes graph.now) }
    requires limits { IsWithinLimits program.now }
    requires fits { OpsFit program.now (gp_of layout.now) (address_of layout.now) graph.now }
    requires branches { BranchesFit graph.now layout.now }
    ensures entry { IfOk result (λ i. i.entry ≡ code_at layout.now program.now.entry) }
    ensures gp { IfOk result (λ i. i.gp ≡ gp_of layout.now program.now.entry.obj) }
    ensures end { IfOk result (λ i. data_base + length i.bytes + i.bss ≡ data_end program.now layout.now) }
    ensures regions { IfOk result (λ i. i.map.regions ≡ map map_region layout.now.regions) }
{
    encode_image(alloc, graph, program, layout)
}
