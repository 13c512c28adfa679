// What a run starts with: its memory and its registers.
ghost use Rattle.std.specs.Prelude.{◌≡◌, ◌≤◌, ◌<◌, ℕ, length, IfOk, OnOk, slice_get, Some, if◌then◌else◌};
ghost use Rattle.std.specs.BTreeMap.{get};
ghost use Rattle.om_value.specs.declared.value.Region.{Region as AnyRegion};
ghost use Rattle.om_value.specs.Same.{region_eq};
ghost use Rattle.om_prog.specs.Cells.{cells_of as value_cells};
ghost use Rattle.om_prog.specs.Keys.{region_cmp};
ghost use Rattle.om_prog.specs.Runs.{start_offset};
ghost use Rattle.om_prog.specs.Step.{write_reg};
ghost use Rattle.om_symrun.specs.CellsIn.{Writes};
ghost use Rattle.om_symrun.specs.Starting.{IsPlacedIn, ArePlacedIn, IsLaid, AreLaid, WritesFields, IsMade, IsMadeOf, init_in, IsFirst};
ghost use Rattle.om_symrun.specs.View.{register_in};

use crate::cells::Cells;
use crate::memory::Memory;
use om_alpha::Size;
use om_io::NoMemory;
use om_prog::{Field, Program, RegionInit};
use om_value::{Place, Region, Value};
use std::alloc::Global;
use std::collections::BTreeMap;

const STACK_SIZE: usize = 0x10_0000;

const STACK_START: u64 = 0xf_ffc0;

// Writes what a field holds.
fn put_field(cells: &mut Cells, f: &Field) -> Result<(), NoMemory>
    requires { IsPlacedIn (length cells.old.bytes) f.now }
    ensures { OnOk result (Writes cells.old cells.new f.now.off (value_cells f.now.width f.now.value)) }
{
    let at = f.off as usize;
    if f.width == 8 {
        cells.store(at, Size::Quad, f.value)?;
    } else if let Value::Num(n) = f.value {
        cells.put_number(at, Size::Long, n);
    } else {
        cells.put_four(at, f.value)?;
    }
    Ok(())
}

// Writes what fields hold, of two that share a cell the first.
fn put_fields(cells: &mut Cells, fields: &[Field]) -> Result<(), NoMemory>
    requires { ArePlacedIn (length cells.old.bytes) fields.now }
    ensures { OnOk result (WritesFields cells.old cells.new fields.now) }
{
    for i in (0..fields.len()).rev() {
        put_field(cells, &fields[i])?;
    }
    Ok(())
}

// The cells of a region at the start.
fn cells_of(alloc: Global, init: &RegionInit) -> Result<Cells, NoMemory>
    requires { IsLaid init.now }
    ensures { IfOk result (λ c. IsMade c init.now) }
{
    let mut cells = Cells::zeros(alloc, init.size as usize)?;
    cells.write(0, init.bytes.as_slice());
    put_fields(&mut cells, init.fields.as_slice())?;
    Ok(cells)
}

// Notes the cells of a region.
fn add(given: &mut BTreeMap<Region, Cells>, region: Region, cells: Cells) -> Result<(), NoMemory>
    ensures { OnOk result ((q : AnyRegion) → get region_cmp given.new q ≡ (if region_eq region q then Some cells else get region_cmp given.old q)) }
{
    given.insert(region, cells)?;
    Ok(())
}

// The cells of all regions that are given, each by its region, of two for one region the first.
fn given_cells(alloc: Global, regions: &[RegionInit]) -> Result<BTreeMap<Region, Cells>, NoMemory>
    requires { AreLaid regions.now }
    ensures { IfOk result (λ m. (r : AnyRegion) → IsMadeOf (get region_cmp m r) (init_in regions.now r)) }
{
    let mut given = BTreeMap::new(alloc);
    for i in (0..regions.len()).rev() {
        let init = &regions[i];
        let cells = cells_of(alloc, init)?;
        add(&mut given, init.region, cells)?;
    }
    Ok(given)
}

/// The memory at the start of a run.
pub(crate) fn first_memory(alloc: Global, p: &Program) -> Result<Memory, NoMemory>
    ensures { IfOk result (λ m. IsFirst p.now m) }
{
    let given = given_cells(alloc, p.regions())?;
    let stack = Cells::zeros(alloc, STACK_SIZE)?;
    let heap = Cells::zeros(alloc, 0)?;
    Ok(Memory::new(stack, heap, given))
}

/// Gives a register a value; what is written to register 31 is lost.
pub(crate) fn set_register(registers: &mut [Value; 32], r: u8, v: Value)
    requires { r < 32 }
    ensures { (x : ℕ) → register_in registers.new x ≡ write_reg (register_in registers.old) r v x }
{
    if r != 31 {
        registers[r as usize] = v;
    }
}

/// The registers at the start of a run.
pub(crate) fn first_registers(entry: Place) -> [Value; 32]
    ensures { (r : ℕ) → register_in result r ≡ write_reg (write_reg (write_reg (λ k. Value.Num 0) 27 (Value.Code entry)) 29 (Value.Gp entry.obj)) 30 (Value.Ptr Region.Stack start_offset) r }
{
    let mut registers = [Value::Num(0); 32];
    set_register(&mut registers, 27, Value::Code(entry));
    set_register(&mut registers, 29, Value::Gp(entry.obj));
    let stack = Value::Ptr {
        region: Region::Stack,
        off: STACK_START,
    };
    set_register(&mut registers, 30, stack);
    registers
}
