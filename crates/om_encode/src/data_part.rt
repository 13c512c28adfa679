//! The data of an image, and what its map says of it.
ghost use Rattle.std.specs.Prelude.{◌≡◌, IfOk, All};
ghost use Rattle.om_prog.specs.Valid.{IsProgram};
ghost use Rattle.om_graph.specs.Kept.{Comes};
ghost use Rattle.om_graph.specs.OfProgram.{IsGraphOf};
ghost use Rattle.om_layout.specs.Facts.{LaysOut};
ghost use Rattle.om_layout.specs.Limits.{IsWithinLimits};
ghost use Rattle.om_encode.specs.Data.{DataIsTrue, DistanceFits};
ghost use Rattle.om_encode.specs.DataBytes.{data_image, data_bytes as data_bytes_of};

use crate::filling::{DATA_BASE, data_end, push_regions, push_tables};
use crate::mapping::{map_objects, map_regions, map_tables};
use crate::ranges::program_fits;
use om_graph::Graph;
use om_image::{MapObj, MapRegion, MapTable};
use om_io::{Bytes, Listed, NoMemory};
use om_layout::Layout;
use om_prog::Program;
use std::alloc::Global;

/// All of an image but its words.
#[derive(Drop)]
pub(crate) struct DataPart {
    pub(crate) entry: u64,
    pub(crate) gp: u64,
    pub(crate) bytes: Bytes,
    /// How many bytes of zero follow these.
    pub(crate) bss: u64,
    pub(crate) objects: Listed<MapObj>,
    pub(crate) tables: Listed<MapTable>,
    pub(crate) regions: Listed<MapRegion>,
}

// The bytes of the data, up to the end of what is not zero.
fn data_bytes(alloc: Global, program: &Program, layout: &Layout) -> Result<Bytes, NoMemory>
    requires { All (λ r. All (λ f. DistanceFits layout.now f.value) r.fields) program.now.regions }
    ensures { IfOk result (λ v. v ≡ data_bytes_of layout.now program.now) }
{
    let mut out = Vec::new(alloc);
    push_tables(&mut out, layout)?;
    push_regions(alloc, &mut out, layout, program)?;
    Ok(Bytes::from_vec(out))
}

/// The data of an image, and what its map says of it.
///
/// The program's numbers fit their fields and its distances theirs, so no answer but `NoMemory` is an error. It takes
/// time near-linear in the words of the program and the bytes of the data.
pub(crate) fn encode_data(
    alloc: Global,
    graph: &Graph,
    program: &Program,
    layout: &Layout,
) -> Result<DataPart, NoMemory>
    requires graph { IsGraphOf program.now graph.now }
    requires layout { LaysOut program.now graph.now layout.now (Comes graph.now) }
    requires limits { IsWithinLimits program.now }
    ensures data_part { IfOk result (λ d. DataIsTrue program.now graph.now layout.now (data_image d)) }
    ensures program { IsProgram program.now }
{
    program_fits(program);
    let bytes = data_bytes(alloc, program, layout)?;
    let end = data_end(layout);
    let bss = end
        .saturating_sub(DATA_BASE)
        .saturating_sub(bytes.as_slice().len() as u64);
    let entry = program.entry();
    Ok(DataPart {
        entry: layout.code(entry),
        gp: layout.gp(entry.obj),
        bytes,
        bss,
        objects: map_objects(alloc, program, layout)?,
        tables: map_tables(alloc, layout.tables())?,
        regions: map_regions(alloc, layout.regions())?,
    })
}
