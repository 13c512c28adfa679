// The bytes of the data, in order of addresses.
ghost use Rattle.std.specs.Prelude.{◌≡◌, ◌+◌, ◌≤◌, ◌++◌, length, find, OnOk, All, option_copied, pos, ◌-ℤ◌, FitsSigned};
ghost use Rattle.std.specs.Int.{w32, cast_unsigned};
ghost use Rattle.std.specs.Option.{ForSome};
ghost use Rattle.om_fields.specs.Bytes.{Grows};
ghost use Rattle.om_value.specs.Same.{region_eq};
ghost use Rattle.om_layout.specs.Layout.{data_base, address_of};
ghost use Rattle.om_layout.specs.Order.{tables_end as end_of_tables};
ghost use Rattle.om_encode.specs.Data.{value_bytes, DistanceFits};
ghost use Rattle.om_encode.specs.DataBytes.{padded_to, overlay, slots_bytes, table_pieces, with_pieces, with_fields, content, pieces_of, region_pieces, HasNumbers, FillsRegion, HasData, end_of_data};

use crate::numbering::RegionNumbers;
use om_fields::{push_u64, push_zeros};
use om_io::NoMemory;
use om_layout::{Layout, Placed};
use om_prog::{Field, Program, RegionInit};
use om_value::{Region, Target, Value};
use std::alloc::Global;

// Where the data begins.
pub(crate) const DATA_BASE: u64 = 0x1_4000_0000;

// Appends zeros up to an address.
fn pad_to(out: &mut Vec<u8>, address: u64) -> Result<(), NoMemory>
    ensures { OnOk result (out.new.items ≡ padded_to address out.old.items) }
{
    let size = address.saturating_sub(DATA_BASE) as usize;
    push_zeros(out, size.saturating_sub(out.len()))?;
    Ok(())
}

// Appends the slots of these targets.
fn push_slots(out: &mut Vec<u8>, layout: &Layout, slots: &[Target]) -> Result<(), NoMemory>
    ensures { OnOk result (Grows out.old.items out.new.items (slots_bytes layout.now slots.now)) }
{
    for target in slots {
        push_u64(out, layout.address(*target))?;
    }
    Ok(())
}

/// Appends the tables, each at its address.
pub(crate) fn push_tables(out: &mut Vec<u8>, layout: &Layout) -> Result<(), NoMemory>
    ensures { OnOk result (out.new.items ≡ with_pieces (table_pieces layout.now layout.now.tables) out.old.items) }
{
    for table in layout.tables() {
        pad_to(out, table.start())?;
        push_slots(out, layout, table.slots())?;
    }
    Ok(())
}

fn put_bytes(bytes: &mut [u8], at: usize, piece: &[u8])
    requires { at + length piece.now ≤ length bytes.old }
    ensures { bytes.new ≡ overlay at piece.now bytes.old }
{
    bytes[at..at + piece.len()].copy_from_slice(piece);
}

// The low 32 bits of how far an address lies behind a global pointer.
pub(crate) fn gp_distance(gp: u64, address: u64) -> u32
    requires { FitsSigned w32 (pos address -ℤ pos gp) }
    ensures { result ≡ cast_unsigned w32 (pos address -ℤ pos gp) }
{
    (address.wrapping_sub(gp) % 0x1_0000_0000) as u32
}

// Puts the value of a field over the bytes from a place on.
fn put_value(bytes: &mut [u8], at: usize, layout: &Layout, value: Value)
    requires room { at + length (value_bytes layout.now value) ≤ length bytes.old }
    requires distance { DistanceFits layout.now value }
    ensures { bytes.new ≡ overlay at (value_bytes layout.now value) bytes.old }
{
    match value {
        Value::Num(n) => put_bytes(bytes, at, &n.to_le_bytes()),
        Value::Ptr { region, off } => {
            let address = layout.region(region).wrapping_add(off);
            put_bytes(bytes, at, &address.to_le_bytes())
        }
        Value::Code(place) => put_bytes(bytes, at, &layout.code(place).to_le_bytes()),
        Value::GpOff { obj, target } => {
            let distance = gp_distance(layout.gp(obj), layout.address(target));
            put_bytes(bytes, at, &distance.to_le_bytes())
        }
        Value::Gp(_) | Value::Half(_) => {}
    }
}

// Puts fields over the bytes of their region, which begins at a place.
fn put_fields(bytes: &mut [u8], base: usize, layout: &Layout, fields: &[Field])
    requires room { All (λ f. base + f.off + length (value_bytes layout.now f.value) ≤ length bytes.old) fields.now }
    requires distances { All (λ f. DistanceFits layout.now f.value) fields.now }
    ensures { bytes.new ≡ with_fields layout.now base fields.now bytes.old }
{
    for field in fields {
        put_value(bytes, base + field.off as usize, layout, field.value);
    }
}

// Appends a region.
fn push_region(out: &mut Vec<u8>, layout: &Layout, init: &RegionInit) -> Result<(), NoMemory>
    requires { FillsRegion layout.now init.now }
    ensures { OnOk result (Grows out.old.items out.new.items (content layout.now init.now)) }
{
    let base = out.len();
    let bytes = init.bytes.as_slice();
    out.extend_from_slice(bytes)?;
    push_zeros(out, init.size as usize - bytes.len())?;
    put_fields(out, base, layout, init.fields.as_slice());
    Ok(())
}

// A region of a program, if it has it.
fn init_in<'a>(
    regions: &'a [RegionInit],
    numbers: &RegionNumbers,
    r: Region,
) -> Option<&'a RegionInit>
    requires { HasNumbers regions.now numbers.now }
    ensures { option_copied result ≡ find (λ i. region_eq i.region r) regions.now }
{
    regions.get(numbers.number(r)?)
}

// Appends what a region is at first, unless it is zero.
fn push_placed(
    out: &mut Vec<u8>,
    layout: &Layout,
    placed: &Placed,
    init: Option<&RegionInit>,
) -> Result<(), NoMemory>
    requires fits { ForSome init (λ i. FillsRegion layout.now i.now) }
    ensures { OnOk result (out.new.items ≡ with_pieces (pieces_of layout.now placed.now (option_copied init.entry)) out.old.items) }
{
    let Some(init) = init else {
        return Ok(());
    };
    if init.zero {
        return Ok(());
    }
    pad_to(out, placed.address())?;
    push_region(out, layout, init)?;
    Ok(())
}

/// Appends the regions that are not zero, each at its address.
pub(crate) fn push_regions(
    alloc: Global,
    out: &mut Vec<u8>,
    layout: &Layout,
    program: &Program,
) -> Result<(), NoMemory>
    requires { All (λ r. All (λ f. DistanceFits layout.now f.value) r.fields) program.now.regions }
    ensures { OnOk result (out.new.items ≡ with_pieces (region_pieces layout.now program.now layout.now.regions) out.old.items) }
{
    let regions = program.regions();
    let numbers = RegionNumbers::of(alloc, regions)?;
    for placed in layout.regions() {
        let init = init_in(regions, &numbers, placed.region());
        push_placed(out, layout, placed, init)?;
    }
    Ok(())
}

// Where the tables end.
fn tables_end(layout: &Layout) -> u64
    requires { HasData layout.now }
    ensures { result ≡ end_of_tables data_base layout.now.tables }
{
    match layout.tables().last() {
        Some(table) => table.start() + 8 * table.slots().len() as u64,
        None => DATA_BASE,
    }
}

/// Where the regions end, which stand behind the tables.
pub(crate) fn data_end(layout: &Layout) -> u64
    requires { HasData layout.now }
    ensures { result ≡ end_of_data layout.now }
{
    match layout.regions().last() {
        Some(placed) => placed.address() + placed.size(),
        None => tables_end(layout),
    }
}
