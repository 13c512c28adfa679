// The map that bytes hold.
ghost use Rattle.std.specs.Prelude.{◌≡◌, ◌≤◌, ◌<◌, ◌+◌, ◌*◌, ◌^◌, ℕ, length, IfOk};
ghost use Rattle.om_fields.specs.Places.{each};
ghost use Rattle.om_image.specs.MapFields.{tables_in, slots_at, slots_of, slots_before, tables_at as tables_start, map_end, region_by as region_of, region_at as region_there, slot_at as slot_there, object_at as object_there, table_with, table_at as table_there, map_region_at as map_region_there, source_at as source_there, map_of};
ghost use Rattle.om_image.specs.Shapes.{IsShape};

use crate::map::{Map, MapObj, MapRegion, MapTable, MapWord, Place, Region, Target};
use crate::map_rules::{is_kept, position_of, shape_of};
use om_fields::{u32_at, u64_at};
use om_io::{Listed, NoMemory};
use std::alloc::Global;

// A region by its kind.
fn region_by(kind: u32, name: u32, number: u8) -> Region
    ensures { result ≡ region_of kind name number }
{
    if kind == 1 {
        Region::Sec { obj: name, number }
    } else if kind == 2 {
        Region::Common { sym: name }
    } else {
        Region::Stack
    }
}

fn region_at(b: &[u8], at: usize) -> Region
    requires { at + 16 ≤ length b.now }
    ensures { result ≡ region_there b.now at }
{
    region_by(u32_at(b, at), u32_at(b, at + 4), b[at + 8])
}

fn slot_at(b: &[u8], at: usize) -> Target
    requires { at + 24 ≤ length b.now }
    ensures { result ≡ slot_there b.now at }
{
    let kind = u32_at(b, at);
    if kind == 0 {
        Target::Num(u64_at(b, at + 16))
    } else if kind == 3 {
        Target::Code(Place {
            obj: u32_at(b, at + 4),
            off: u32_at(b, at + 16),
        })
    } else {
        Target::Ptr {
            region: region_at(b, at),
            off: u64_at(b, at + 16),
        }
    }
}

fn object_at(b: &[u8], at: usize) -> MapObj
    requires { at + 8 ≤ length b.now }
    ensures { result ≡ object_there b.now at }
{
    MapObj {
        words: u32_at(b, at),
        table: u32_at(b, at + 4),
    }
}

fn map_region_at(b: &[u8], at: usize) -> MapRegion
    requires { at + 32 ≤ length b.now }
    ensures { result ≡ map_region_there b.now at }
{
    MapRegion {
        region: region_at(b, at),
        address: u64_at(b, at + 16),
        size: u64_at(b, at + 24),
    }
}

fn source_at(b: &[u8], at: usize) -> MapWord
    requires { at + 8 ≤ length b.now }
    ensures { result ≡ source_there b.now at }
{
    let bits = u32_at(b, at + 4);
    MapWord {
        old: u32_at(b, at),
        position: position_of(bits),
        kept: is_kept(bits),
    }
}

fn objects(alloc: Global, b: &[u8], n: usize) -> Result<Listed<MapObj>, NoMemory>
    requires { 24 + 8 * n ≤ length b.now }
    ensures { IfOk result (λ objects. objects ≡ each (λ k. object_there b.now (24 + 8 * k)) n) }
{
    let mut objects = Vec::with_capacity(alloc, n)?;
    for k in 0..n {
        objects.push(object_at(b, 24 + 8 * k))?;
    }
    Ok(Listed::from_vec(objects))
}

fn slots(alloc: Global, b: &[u8], at: usize, n: usize) -> Result<Listed<Target>, NoMemory>
    requires { at + 24 * n ≤ length b.now }
    ensures { IfOk result (λ slots. slots ≡ each (λ j. slot_there b.now (at + 24 * j)) n) }
{
    let mut slots = Vec::with_capacity(alloc, n)?;
    for j in 0..n {
        slots.push(slot_at(b, at + 24 * j))?;
    }
    Ok(Listed::from_vec(slots))
}

// The `k`-th table, whose header stands at `at`, and its slots at `place`.
fn table(alloc: Global, b: &[u8], at: usize, place: usize, n: usize) -> Result<MapTable, NoMemory>
    requires header { at + 16 ≤ length b.now }
    requires slots { place + 24 * n ≤ length b.now }
    ensures { IfOk result (λ table. table ≡ table_with b.now at place n) }
{
    let slots = slots(alloc, b, place, n)?;
    Ok(MapTable {
        start: u64_at(b, at),
        slots,
    })
}

#[tactic(auto, using(crate::proofs::Items::tables_next, crate::proofs::Below::sum_next, crate::proofs::Below::sum_above))]
fn tables(
    alloc: Global,
    b: &[u8],
    tables_at: usize,
    slots_at: usize,
    n: usize,
) -> Result<Listed<MapTable>, NoMemory>
    requires tables { tables_at ≡ tables_start b.now }
    requires slots { slots_at ≡ tables_at + 16 * n }
    requires count { n ≡ tables_in b.now }
    requires inside { slots_at + 24 * slots_before b.now n ≤ length b.now }
    ensures { IfOk result (λ tables. tables ≡ each (table_there b.now) n) }
{
    let mut tables = Vec::with_capacity(alloc, n)?;
    let mut place = slots_at;
    for k in 0..n {
        let at = tables_at + 16 * k;
        let count = u32_at(b, at + 8) as usize;
        tables.push(table(alloc, b, at, place, count)?)?;
        place += 24 * count;
    }
    Ok(Listed::from_vec(tables))
}

fn regions(alloc: Global, b: &[u8], at: usize, n: usize) -> Result<Listed<MapRegion>, NoMemory>
    requires { at + 32 * n ≤ length b.now }
    ensures { IfOk result (λ regions. regions ≡ each (λ k. map_region_there b.now (at + 32 * k)) n) }
{
    let mut regions = Vec::with_capacity(alloc, n)?;
    for k in 0..n {
        regions.push(map_region_at(b, at + 32 * k))?;
    }
    Ok(Listed::from_vec(regions))
}

fn sources(alloc: Global, b: &[u8], at: usize, n: usize) -> Result<Listed<MapWord>, NoMemory>
    requires { at + 8 * n ≤ length b.now }
    ensures { IfOk result (λ words. words ≡ each (λ k. source_there b.now (at + 8 * k)) n) }
{
    let mut words = Vec::with_capacity(alloc, n)?;
    for k in 0..n {
        words.push(source_at(b, at + 8 * k))?;
    }
    Ok(Listed::from_vec(words))
}

/// The map that bytes hold which its parts fill exactly.
pub fn read_map(alloc: Global, b: &[u8]) -> Result<Map, NoMemory>
    requires long { 24 ≤ length b.now }
    requires ends { map_end b.now ≡ length b.now }
    ensures { IfOk result (λ m. m ≡ map_of b.now) }
{
    let s = shape_of(b);
    let tables_at = 24 + 8 * s.objects;
    let slots_at = tables_at + 16 * s.tables;
    let regions_at = slots_at + 24 * s.slots;
    let words_at = regions_at + 32 * s.regions;
    Ok(Map {
        objects: objects(alloc, b, s.objects)?,
        tables: tables(alloc, b, tables_at, slots_at, s.tables)?,
        regions: regions(alloc, b, regions_at, s.regions)?,
        words: sources(alloc, b, words_at, s.words)?,
    })
}
