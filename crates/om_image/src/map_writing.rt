// The bytes of a map.
ghost use Rattle.std.specs.Prelude.{◌≡◌, ◌+◌, ◌*◌, ◌^◌, ◌<◌, ◌≤◌, length, flat_map, OnOk, All};
ghost use Rattle.om_fields.specs.Bytes.{Grows};
ghost use Rattle.om_image.specs.Written.{key_bytes, region_key, slot_key, slot_number as number_of, slot_bytes, object_bytes, table_bytes, slots_bytes, region_bytes, position_bits as bits_of, source_bytes, map_head, map_bytes, slot_count as count_of_slots, map_size as size_of_map};
ghost use Rattle.om_image.specs.Valid.{IsMap};

use crate::map::{Map, MapObj, MapRegion, MapTable, MapWord, Region, Target};
use om_fields::{push_u32, push_u64};
use om_io::NoMemory;

// Appends a kind, an object or a name, a section number, and zero.
#[tactic(auto, unfolding(crate::specs::Written::key_bytes))]
fn push_key(out: &mut Vec<u8>, kind: u32, name: u32, number: u32) -> Result<(), NoMemory>
    ensures { OnOk result (Grows out.old.items out.new.items (key_bytes kind name number)) }
{
    push_u32(out, kind)?;
    push_u32(out, name)?;
    push_u32(out, number)?;
    push_u32(out, 0)?;
    Ok(())
}

// Appends a region's key. A map has no stack: its kind would be 4, which is none.
fn push_region_key(out: &mut Vec<u8>, region: Region) -> Result<(), NoMemory>
    ensures { OnOk result (Grows out.old.items out.new.items (region_key region)) }
{
    match region {
        Region::Sec { obj, number } => push_key(out, 1, obj, u32::from(number)),
        Region::Common { sym } => push_key(out, 2, sym, 0),
        Region::Stack => push_key(out, 4, 0, 0),
    }
}

// Appends the key of a slot.
fn push_slot_key(out: &mut Vec<u8>, target: Target) -> Result<(), NoMemory>
    ensures { OnOk result (Grows out.old.items out.new.items (slot_key target)) }
{
    match target {
        Target::Num(_) => push_key(out, 0, 0, 0),
        Target::Ptr { region, .. } => push_region_key(out, region),
        Target::Code(place) => push_key(out, 3, place.obj, 0),
    }
}

// The number or the offset of a slot.
fn slot_number(target: Target) -> u64
    ensures { result ≡ number_of target }
{
    match target {
        Target::Num(n) => n,
        Target::Ptr { off, .. } => off,
        Target::Code(place) => u64::from(place.off),
    }
}

// Appends a slot.
#[tactic(auto, unfolding(crate::specs::Written::slot_bytes))]
fn push_slot(out: &mut Vec<u8>, target: &Target) -> Result<(), NoMemory>
    ensures { OnOk result (Grows out.old.items out.new.items (slot_bytes target.now)) }
{
    push_slot_key(out, *target)?;
    push_u64(out, slot_number(*target))?;
    Ok(())
}

// Appends an object.
#[tactic(auto, unfolding(crate::specs::Written::object_bytes))]
fn push_object(out: &mut Vec<u8>, o: &MapObj) -> Result<(), NoMemory>
    ensures { OnOk result (Grows out.old.items out.new.items (object_bytes o.now)) }
{
    push_u32(out, o.words)?;
    push_u32(out, o.table)?;
    Ok(())
}

// Appends a table without its slots.
#[tactic(auto, unfolding(crate::specs::Written::table_bytes))]
fn push_table(out: &mut Vec<u8>, t: &MapTable) -> Result<(), NoMemory>
    requires { length t.now.slots < 2 ^ 32 }
    ensures { OnOk result (Grows out.old.items out.new.items (table_bytes t.now)) }
{
    push_u64(out, t.start)?;
    push_u32(out, t.slots.as_slice().len() as u32)?;
    push_u32(out, 0)?;
    Ok(())
}

// Appends a region.
#[tactic(auto, unfolding(crate::specs::Written::region_bytes))]
fn push_region(out: &mut Vec<u8>, r: &MapRegion) -> Result<(), NoMemory>
    ensures { OnOk result (Grows out.old.items out.new.items (region_bytes r.now)) }
{
    push_region_key(out, r.region)?;
    push_u64(out, r.address)?;
    push_u64(out, r.size)?;
    Ok(())
}

// A position, and above it the bit that says that the word is kept.
fn position_bits(w: &MapWord) -> u32
    requires { w.now.position < 2 ^ 31 }
    ensures { result ≡ bits_of w.now }
{
    if w.kept {
        w.position + 0x8000_0000
    } else {
        w.position
    }
}

// Appends a source word.
#[tactic(auto, unfolding(crate::specs::Written::source_bytes))]
fn push_source(out: &mut Vec<u8>, w: &MapWord) -> Result<(), NoMemory>
    requires { w.now.position < 2 ^ 31 }
    ensures { OnOk result (Grows out.old.items out.new.items (source_bytes w.now)) }
{
    push_u32(out, w.old)?;
    push_u32(out, position_bits(w))?;
    Ok(())
}

fn push_objects(out: &mut Vec<u8>, objects: &[MapObj]) -> Result<(), NoMemory>
    ensures { OnOk result (Grows out.old.items out.new.items (flat_map object_bytes objects.now)) }
{
    for o in objects {
        push_object(out, o)?;
    }
    Ok(())
}

fn push_tables(out: &mut Vec<u8>, tables: &[MapTable]) -> Result<(), NoMemory>
    requires { All (λ t. length t.slots < 2 ^ 32) tables.now }
    ensures { OnOk result (Grows out.old.items out.new.items (flat_map table_bytes tables.now)) }
{
    for t in tables {
        push_table(out, t)?;
    }
    Ok(())
}

fn push_slots(out: &mut Vec<u8>, slots: &[Target]) -> Result<(), NoMemory>
    ensures { OnOk result (Grows out.old.items out.new.items (flat_map slot_bytes slots.now)) }
{
    for target in slots {
        push_slot(out, target)?;
    }
    Ok(())
}

// Appends the slots of all tables, table by table.
fn push_all_slots(out: &mut Vec<u8>, tables: &[MapTable]) -> Result<(), NoMemory>
    ensures { OnOk result (Grows out.old.items out.new.items (flat_map slots_bytes tables.now)) }
{
    for t in tables {
        push_slots(out, t.slots.as_slice())?;
    }
    Ok(())
}

fn push_regions(out: &mut Vec<u8>, regions: &[MapRegion]) -> Result<(), NoMemory>
    ensures { OnOk result (Grows out.old.items out.new.items (flat_map region_bytes regions.now)) }
{
    for r in regions {
        push_region(out, r)?;
    }
    Ok(())
}

fn push_sources(out: &mut Vec<u8>, words: &[MapWord]) -> Result<(), NoMemory>
    requires { All (λ w. w.position < 2 ^ 31) words.now }
    ensures { OnOk result (Grows out.old.items out.new.items (flat_map source_bytes words.now)) }
{
    for w in words {
        push_source(out, w)?;
    }
    Ok(())
}

// Appends the start of a map: its mark, and how many objects, tables, regions and words follow.
#[tactic(auto, unfolding(crate::specs::Written::map_head))]
fn push_map_head(
    out: &mut Vec<u8>,
    objects: u32,
    tables: u32,
    regions: u32,
    words: u32,
) -> Result<(), NoMemory>
    ensures { OnOk result (Grows out.old.items out.new.items (map_head objects tables regions words)) }
{
    out.extend_from_slice(b"OMMAP1\0\0")?;
    push_u32(out, objects)?;
    push_u32(out, tables)?;
    push_u32(out, regions)?;
    push_u32(out, words)?;
    Ok(())
}

/// Appends a map: its start, the objects, the tables, the slots table by table, the regions, and the source words.
#[tactic(auto, unfolding(crate::specs::Written::map_bytes))]
pub fn push_map(out: &mut Vec<u8>, m: &Map) -> Result<(), NoMemory>
    requires few_objects { length m.now.objects < 2 ^ 32 }
    requires few_tables { length m.now.tables < 2 ^ 32 }
    requires few_slots { All (λ t. length t.slots < 2 ^ 32) m.now.tables }
    requires few_regions { length m.now.regions < 2 ^ 32 }
    requires few_words { length m.now.words < 2 ^ 32 }
    requires positions { All (λ w. w.position < 2 ^ 31) m.now.words }
    ensures { OnOk result (Grows out.old.items out.new.items (map_bytes m.now)) }
{
    let objects = m.objects.as_slice();
    let tables = m.tables.as_slice();
    let regions = m.regions.as_slice();
    let words = m.words.as_slice();
    push_map_head(
        out,
        objects.len() as u32,
        tables.len() as u32,
        regions.len() as u32,
        words.len() as u32,
    )?;
    push_objects(out, objects)?;
    push_tables(out, tables)?;
    push_all_slots(out, tables)?;
    push_regions(out, regions)?;
    push_sources(out, words)?;
    Ok(())
}

// How many slots the tables have in all.
fn slot_count(tables: &[MapTable]) -> u64
    requires { count_of_slots tables.now < 2 ^ 60 }
    ensures { result ≡ count_of_slots tables.now }
{
    let mut count = 0;
    for t in tables {
        count += t.slots.as_slice().len() as u64;
    }
    count
}

/// The size of a map in bytes.
pub fn map_size(m: &Map) -> u64
    requires { size_of_map m.now < 2 ^ 63 }
    ensures { result ≡ size_of_map m.now }
{
    let objects = m.objects.as_slice().len() as u64;
    let tables = m.tables.as_slice().len() as u64;
    let regions = m.regions.as_slice().len() as u64;
    let words = m.words.as_slice().len() as u64;
    let slots = slot_count(m.tables.as_slice());
    24 + 8 * objects + 16 * tables + 24 * slots + 32 * regions + 8 * words
}
