// The map's objects, tables and regions.
ghost use Rattle.std.specs.Prelude.{◌≡◌, ◌<◌, ◌^◌, length, map, IfOk};
ghost use Rattle.om_encode.specs.Data.{place_in_map as map_place_of, part_of as map_part_of, slot_target as slot_target_of, map_table as map_table_of, map_region as map_region_of};
ghost use Rattle.om_encode.specs.DataBytes.{map_objects as map_objects_of};

use om_image::{
    MapObj, MapRegion, MapTable, Place as MapPlace, Region as MapPart, Target as SlotTarget,
};
use om_io::{Listed, NoMemory};
use om_layout::{Layout, Placed, Table};
use om_prog::Program;
use om_value::{Place, Region, Target};
use std::alloc::Global;

fn place_in_map(place: Place) -> MapPlace
    ensures { result ≡ map_place_of place }
{
    MapPlace {
        obj: place.obj,
        off: place.off,
    }
}

// A region of a map. No layout has the heap, and a map has none.
fn part_of(r: Region) -> MapPart
    ensures { result ≡ map_part_of r }
{
    match r {
        Region::Sec { obj, number } => MapPart::Sec { obj, number },
        Region::Common { sym } => MapPart::Common { sym },
        Region::Stack => MapPart::Stack,
        Region::Heap => MapPart::Stack,
    }
}

fn slot_target(t: Target) -> SlotTarget
    ensures { result ≡ slot_target_of t }
{
    match t {
        Target::Num(n) => SlotTarget::Num(n),
        Target::Ptr { region, off } => SlotTarget::Ptr {
            region: part_of(region),
            off,
        },
        Target::Code(place) => SlotTarget::Code(place_in_map(place)),
    }
}

fn slot_targets(alloc: Global, slots: &[Target]) -> Result<Listed<SlotTarget>, NoMemory>
    ensures { IfOk result (λ v. v ≡ map slot_target_of slots.now) }
{
    let mut targets = Vec::with_capacity(alloc, slots.len())?;
    for t in slots {
        targets.push(slot_target(*t))?;
    }
    Ok(Listed::from_vec(targets))
}

fn map_table(alloc: Global, table: &Table) -> Result<MapTable, NoMemory>
    ensures { IfOk result (λ t. t ≡ map_table_of table.now) }
{
    let slots = slot_targets(alloc, table.slots())?;
    Ok(MapTable {
        start: table.start(),
        slots,
    })
}

/// The tables of a map.
pub(crate) fn map_tables(alloc: Global, tables: &[Table]) -> Result<Listed<MapTable>, NoMemory>
    ensures { IfOk result (λ v. v ≡ map map_table_of tables.now) }
{
    let mut map = Vec::with_capacity(alloc, tables.len())?;
    for table in tables {
        map.push(map_table(alloc, table)?)?;
    }
    Ok(Listed::from_vec(map))
}

fn map_region(placed: &Placed) -> MapRegion
    ensures { result ≡ map_region_of placed.now }
{
    MapRegion {
        region: part_of(placed.region()),
        address: placed.address(),
        size: placed.size(),
    }
}

/// The regions of a map.
pub(crate) fn map_regions(alloc: Global, regions: &[Placed]) -> Result<Listed<MapRegion>, NoMemory>
    ensures { IfOk result (λ v. v ≡ map map_region_of regions.now) }
{
    let mut map = Vec::with_capacity(alloc, regions.len())?;
    for placed in regions {
        map.push(map_region(placed))?;
    }
    Ok(Listed::from_vec(map))
}

/// The objects of a map.
#[tactic(auto, using(crate::proofs::Mapped::each_snoc))]
pub(crate) fn map_objects(
    alloc: Global,
    program: &Program,
    layout: &Layout,
) -> Result<Listed<MapObj>, NoMemory>
    ensures { IfOk result (λ v. v ≡ map_objects_of program.now layout.now) }
{
    let objects = program.objects();
    let mut map = Vec::with_capacity(alloc, objects as usize)?;
    for obj in 0..objects {
        map.push(MapObj {
            words: program.words(obj),
            table: layout.table(obj),
        })?;
    }
    Ok(Listed::from_vec(map))
}
