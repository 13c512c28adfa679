//! From a graph and its layout to an image.
ghost use Rattle.std.specs.Prelude.{◌≡◌, IfOk};
ghost use Rattle.om_graph.specs.Fits.{OpsFit};
ghost use Rattle.om_graph.specs.Kept.{Comes, KeptInBlocks};
ghost use Rattle.om_graph.specs.OfProgram.{IsGraphOf};
ghost use Rattle.om_image.specs.Valid.{IsValidImage};
ghost use Rattle.om_layout.specs.Layout.{gp_of, address_of};
ghost use Rattle.om_layout.specs.Facts.{LaysOut};
ghost use Rattle.om_layout.specs.Limits.{IsWithinLimits};
ghost use Rattle.om_encode.specs.Fitting.{BranchesFit};
ghost use Rattle.om_encode.specs.TrueMap.{IsMapIn};
ghost use Rattle.om_encode.specs.Joined.{joined};

use crate::data_part::{DataPart, encode_data};
use crate::text_part::{TextPart, encode_text};
use om_graph::Graph;
use om_image::{Image, Map};
use om_io::NoMemory;
use om_layout::Layout;
use om_prog::Program;
use std::alloc::Global;

// The image of these parts.
fn image_of(data: DataPart, text: TextPart) -> Image
    ensures { result ≡ joined «data» text }
{
    let DataPart {
        entry,
        gp,
        bytes,
        bss,
        objects,
        tables,
        regions,
    } = data;
    let TextPart { text, words } = text;
    Image {
        entry,
        gp,
        text,
        bytes,
        bss,
        map: Map {
            objects,
            tables,
            regions,
            words,
        },
    }
}

/// The image of a program's graph in a layout, whatever the order in which that has the words.
///
/// The program is within the limits of a link: at most 256 objects, 4,194,304 words, 33,554,432 bytes of regions and
/// 1,002,048 regions. Each op that stands for an address fits its instruction, each branch of the graph reaches its
/// place in the layout, and no place that a run may come to has been dropped.
///
/// The image's map is true of the program, the graph and the layout, so its runs are those of the graph
/// (`true_maps_run`), and it breaks no rule of images. `NoMemory` comes where memory runs out, and nowhere else. Takes
/// time near-linear in the words of the program and the bytes of the data.
pub fn encode_image(
    alloc: Global,
    graph: &Graph,
    program: &Program,
    layout: &Layout,
) -> Result<Image, NoMemory>
    requires graph { IsGraphOf program.now graph.now }
    requires kept { KeptInBlocks graph.now }
    requires layout { LaysOut program.now graph.now layout.now (Comes graph.now) }
    requires limits { IsWithinLimits program.now }
    requires fits { OpsFit program.now (gp_of layout.now) (address_of layout.now) graph.now }
    requires branches { BranchesFit graph.now layout.now }
    ensures map { IfOk result (λ image. IsMapIn program.now graph.now layout.now image) }
    ensures valid { IfOk result (λ image. IsValidImage image) }
{
    let data = encode_data(alloc, graph, program, layout)?;
    let text = encode_text(alloc, graph, program, layout)?;
    Ok(image_of(data, text))
}
