// A caller of om_prog.
ghost use Rattle.om_prog.specs.Made.{MakesProgram};
ghost use Rattle.om_prog.specs.View.{items_lists};

use om_prog::{Item, ProgErr, Program, RegionInit};
use om_value::Place;
use std::alloc::Global;

/// The program of these parts.
pub fn program(
    alloc: Global,
    texts: Vec<Vec<Item>>,
    regions: Vec<RegionInit>,
    entry: Place,
) -> Result<Program, ProgErr>
    ensures { MakesProgram
        (record { texts = items_lists texts.items; regions = regions.items; entry = entry })
        result }
{
    Program::make(alloc, texts, regions, entry)
}
