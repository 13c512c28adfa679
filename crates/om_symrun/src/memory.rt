// The memory of a run: the stack, the heap and the regions that the program gives.
ghost use Rattle.std.specs.Prelude.{◌≡◌, ◌≤◌, ◌+◌, ℕ, true, false, IsTrue, IfOk, OnOk, OnErr, length};
ghost use Rattle.std.specs.Option.{option_copied};
ghost use Rattle.om_prog.specs.Cells.{cells_of, load_cells, all_bytes, cells_from};
ghost use Rattle.om_symrun.specs.Actions.{holds, IsInside};
ghost use Rattle.om_symrun.specs.CellsIn.{byte_cells, size_bytes};
ghost use Rattle.om_symrun.specs.Calls.{region_bytes};
ghost use Rattle.om_symrun.specs.Memory.{cells_for, memory_cells, memory_size, heap_size, WritesRegion, SameCells, ResizesHeap};

use crate::cells::Cells;
use om_alpha::Size;
use om_io::NoMemory;
use om_value::{Region, Value};
use std::collections::BTreeMap;
use std::marker::Model;

/// The cells of all regions. The heap has as many cells as its size is now.
#[derive(Drop)]
pub(crate) struct Memory {
    stack: Cells,
    heap: Cells,
    given: BTreeMap<Region, Cells>,
}

impl Model for Memory {
    ghost use Rattle.om_symrun.specs.RegionCells.{Regions};

    ghost Value = { Regions };

    ghost view = { λ m. record { stack = m.stack; heap = m.heap; given = m.given.entries } };
}

impl Memory {
    /// A memory of these cells.
    pub(crate) fn new(stack: Cells, heap: Cells, given: BTreeMap<Region, Cells>) -> Memory
        ensures { result ≡ record { stack = stack; heap = heap; given = given.entries } }
    {
        Memory { stack, heap, given }
    }

    /// The cells of a region, if it is there.
    fn cells(&self, region: Region) -> Option<&Cells>
        ensures { option_copied result ≡ cells_for self.now region }
    {
        match region {
            Region::Stack => Some(&self.stack),
            Region::Heap => Some(&self.heap),
            _ => self.given.get(&region),
        }
    }

    /// How many cells a region has; none where it is not there.
    pub(crate) fn size(&self, region: Region) -> u64
        ensures { result ≡ memory_size self.now region }
    {
        match self.cells(region) {
            Some(cells) => cells.size(),
            None => 0,
        }
    }

    /// What a load at a multiple of its size finds in a region, or `None` where the cells hold no value.
    pub(crate) fn load(&self, region: Region, at: u64, size: Size) -> Option<Value>
        requires { IsInside self.now region at (size_bytes size) }
        ensures { result ≡ load_cells (memory_cells self.now region) at (size_bytes size) }
    {
        let cells = self.cells(region)?;
        cells.load(at as usize, size)
    }

    /// Whether a range holds bytes alone.
    pub(crate) fn are_bytes(&self, region: Region, at: u64, count: u64) -> bool
        requires { at + count ≤ memory_size self.now region }
        ensures all { IsTrue result → all_bytes (cells_from (memory_cells self.now region) at count) ≡ Some (region_bytes self.now region at count) }
        ensures one { result ≡ false → all_bytes (cells_from (memory_cells self.now region) at count) ≡ None }
    {
        match self.cells(region) {
            Some(cells) => cells.are_bytes(at as usize, count as usize),
            None => true,
        }
    }

    /// The bytes of a range.
    pub(crate) fn bytes(&self, region: Region, at: u64, count: u64) -> &[u8]
        requires { at + count ≤ memory_size self.now region }
        ensures { result.now ≡ region_bytes self.now region at count }
    {
        match self.cells(region) {
            Some(cells) => cells.bytes(at as usize, count as usize),
            None => &[],
        }
    }

    /// Writes a value, or the low bytes of a number.
    pub(crate) fn store(
        &mut self,
        region: Region,
        at: u64,
        size: Size,
        v: Value,
    ) -> Result<(), NoMemory>
        requires inside { IsInside self.old region at (size_bytes size) }
        requires holds { holds size v ≡ true }
        ensures writes { OnOk result (WritesRegion self.old self.new region at (cells_of (size_bytes size) v)) }
        ensures same { OnErr result (SameCells self.old self.new) }
    {
        if let Region::Stack = region {
            return self.stack.store(at as usize, size, v);
        }
        if let Region::Heap = region {
            return self.heap.store(at as usize, size, v);
        }
        let Some(cells) = self.given.get_mut(&region) else {
            return Ok(());
        };
        cells.store(at as usize, size, v)?;
        Ok(())
    }

    /// Writes bytes.
    pub(crate) fn write(&mut self, region: Region, at: u64, piece: &[u8])
        requires { at + length piece.now ≤ memory_size self.old region }
        ensures { WritesRegion self.old self.new region at (byte_cells piece.now) }
    {
        match region {
            Region::Stack => self.stack.write(at as usize, piece),
            Region::Heap => self.heap.write(at as usize, piece),
            _ => {
                if let Some(cells) = self.given.get_mut(&region) {
                    cells.write(at as usize, piece);
                }
            }
        }
    }

    /// The heap's size.
    pub(crate) fn heap_size(&self) -> u64
        ensures { result ≡ heap_size self.now }
    {
        self.heap.size()
    }

    /// Gives the heap a size. Where memory runs out, nothing has changed.
    pub(crate) fn resize_heap(&mut self, size: u64) -> Result<(), NoMemory>
        ensures resized { OnOk result (ResizesHeap self.old self.new size) }
        ensures same { OnErr result (SameCells self.old self.new) }
    {
        self.heap.resize(size as usize)
    }
}
