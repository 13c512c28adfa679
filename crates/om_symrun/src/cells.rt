// The cells of one region: its bytes, and beside them which belong to values that have no number.
ghost use Rattle.std.specs.Prelude.{◌≡◌, ◌≤◌, ◌+◌, ◌%◌, ℕ, true, false, IsTrue, IfOk, OnOk, OnErr, length, take, drop};
ghost use Rattle.byteorder.specs.Endian.{little_from, little_bytes};
ghost use Rattle.om_prog.specs.Cells.{bytes_of, parts_from, cells_of, load_cells, whole_value, cells_from};
ghost use Rattle.om_symrun.specs.Actions.{holds};
ghost use Rattle.om_symrun.specs.CellsIn.{size_bytes, cell_in, byte_cells, Writes, Same, Resized, IsZeros, Splices, SetsMarks, AllAre, OneIsNot};

use byteorder::{ByteOrder, LittleEndian};
use om_alpha::Size;
use om_io::NoMemory;
use om_value::Value;
use std::alloc::Global;
use std::collections::BTreeMap;
use std::marker::Model;

/// What a cell holds.
#[derive(Clone, Copy, PartialEq, Eq, Debug)]
pub(crate) enum Mark {
    /// A byte.
    Byte,
    /// A fragment of a value of eight cells, the first of which is at a multiple of 8.
    Eight,
    /// A fragment of a value of four cells, the first of which is at a multiple of 4.
    Four,
}

/// The cells of one region. The values of eight cells are found by their first offset divided by 8, those of four by theirs
/// divided by 4; which of their fragments are still there, the marks say.
#[derive(Drop)]
pub(crate) struct Cells {
    bytes: Vec<u8>,
    marks: Vec<Mark>,
    eights: BTreeMap<u64, Value>,
    fours: BTreeMap<u64, Value>,
}

impl Model for Cells {
    ghost use Rattle.std.specs.Prelude.{◌≡◌, length};
    ghost use Rattle.om_symrun.specs.RegionCells.{RegionCells};

    ghost Value = { RegionCells };

    ghost view = { λ c. record { bytes = c.bytes.items; marks = c.marks.items; eights = c.eights.entries; fours = c.fours.entries } };

    ghost invariant = { λ c. length c.marks.items ≡ length c.bytes.items };
}

fn put_bytes(bytes: &mut [u8], at: usize, piece: &[u8])
    requires { at + length piece.now ≤ length bytes.old }
    ensures { Splices bytes.old bytes.new at piece.now }
{
    bytes[at..at + piece.len()].copy_from_slice(piece);
}

fn set_marks(marks: &mut [Mark], at: usize, count: usize, mark: Mark)
    requires { at + count ≤ length marks.old }
    ensures { SetsMarks marks.old marks.new at count mark }
{
    marks[at..at + count].fill(mark);
}

/// Whether all cells of a range have a mark.
fn all_are(marks: &[Mark], at: usize, count: usize, mark: Mark) -> bool
    requires { at + count ≤ length marks.now }
    ensures all { IsTrue result → AllAre marks.now at count mark }
    ensures one { result ≡ false → OneIsNot marks.now at count mark }
{
    for k in at..at + count {
        if marks[k] != mark {
            return false;
        }
    }
    true
}

fn number_at(bytes: &[u8], at: usize, size: Size) -> u64
    requires { at + size_bytes size ≤ length bytes.now }
    ensures { result ≡ little_from at (size_bytes size) bytes.now }
{
    match size {
        Size::Byte => u64::from(bytes[at]),
        Size::Word => u64::from(LittleEndian::read_u16(&bytes[at..])),
        Size::Long => u64::from(LittleEndian::read_u32(&bytes[at..])),
        Size::Quad => LittleEndian::read_u64(&bytes[at..]),
    }
}

fn low_byte(n: u64) -> [u8; 1]
    ensures { result ≡ little_bytes 1 n }
{
    [(n % 0x100) as u8]
}

#[tactic(auto, using(crate::proofs::Numbers::two_bytes))]
fn low_word(n: u64) -> [u8; 2]
    ensures { result ≡ little_bytes 2 n }
{
    ((n % 0x1_0000) as u16).to_le_bytes()
}

#[tactic(auto, using(crate::proofs::Numbers::four_bytes))]
fn low_long(n: u64) -> [u8; 4]
    ensures { result ≡ little_bytes 4 n }
{
    ((n % 0x1_0000_0000) as u32).to_le_bytes()
}

impl Cells {
    /// So many bytes of zero.
    pub(crate) fn zeros(alloc: Global, size: usize) -> Result<Cells, NoMemory>
        ensures { IfOk result (λ c. IsZeros c size) }
    {
        let bytes = vec![in alloc; 0u8; size]?;
        let marks = vec![in alloc; Mark::Byte; size]?;
        Ok(Cells {
            bytes,
            marks,
            eights: BTreeMap::new(alloc),
            fours: BTreeMap::new(alloc),
        })
    }

    /// How many there are.
    pub(crate) fn size(&self) -> u64
        ensures { result ≡ length self.now.bytes }
    {
        self.bytes.len() as u64
    }

    /// Whether a range holds bytes alone.
    pub(crate) fn are_bytes(&self, at: usize, count: usize) -> bool
        requires { at + count ≤ length self.now.bytes }
        ensures all { IsTrue result → AllAre self.now.marks at count Mark.Byte }
        ensures one { result ≡ false → OneIsNot self.now.marks at count Mark.Byte }
    {
        all_are(&self.marks, at, count, Mark::Byte)
    }

    /// The bytes of a range that holds bytes alone.
    pub(crate) fn bytes(&self, at: usize, count: usize) -> &[u8]
        requires { at + count ≤ length self.now.bytes }
        ensures { result.now ≡ take count (drop at self.now.bytes) }
    {
        &self.bytes[at..at + count]
    }

    // The value whose fragments a range is.
    fn whole(&self, at: usize, size: Size) -> Option<Value>
        requires fits { at + size_bytes size ≤ length self.now.bytes }
        requires aligned { at % size_bytes size ≡ 0 }
        ensures { result ≡ whole_value (cells_from (cell_in self.now) at (size_bytes size)) }
    {
        match size {
            Size::Quad => {
                if all_are(&self.marks, at, 8, Mark::Eight) {
                    self.eights.get(&(at as u64 / 8)).copied()
                } else {
                    None
                }
            }
            Size::Long => {
                if all_are(&self.marks, at, 4, Mark::Four) {
                    self.fours.get(&(at as u64 / 4)).copied()
                } else {
                    None
                }
            }
            _ => None,
        }
    }

    /// What a load at a multiple of its size finds, or `None` where the cells hold no value.
    pub(crate) fn load(&self, at: usize, size: Size) -> Option<Value>
        requires fits { at + size_bytes size ≤ length self.now.bytes }
        requires aligned { at % size_bytes size ≡ 0 }
        ensures { result ≡ load_cells (cell_in self.now) at (size_bytes size) }
    {
        if self.are_bytes(at, length_of(size)) {
            Some(Value::Num(number_at(&self.bytes, at, size)))
        } else {
            self.whole(at, size)
        }
    }

    /// Writes bytes.
    pub(crate) fn write(&mut self, at: usize, piece: &[u8])
        requires { at + length piece.now ≤ length self.old.bytes }
        ensures { Writes self.old self.new at (byte_cells piece.now) }
    {
        put_bytes(&mut self.bytes, at, piece);
        set_marks(&mut self.marks, at, piece.len(), Mark::Byte);
    }

    /// Writes the low bytes of a number.
    pub(crate) fn put_number(&mut self, at: usize, size: Size, n: u64)
        requires { at + size_bytes size ≤ length self.old.bytes }
        ensures { Writes self.old self.new at (bytes_of (size_bytes size) n) }
    {
        match size {
            Size::Byte => self.write(at, &low_byte(n)),
            Size::Word => self.write(at, &low_word(n)),
            Size::Long => self.write(at, &low_long(n)),
            Size::Quad => self.write(at, &n.to_le_bytes()),
        }
    }

    // Writes the eight fragments of a value at a multiple of 8.
    fn put_eight(&mut self, at: usize, v: Value) -> Result<(), NoMemory>
        requires fits { at + 8 ≤ length self.old.bytes }
        requires aligned { at % 8 ≡ 0 }
        ensures writes { OnOk result (Writes self.old self.new at (parts_from v 0 8 8)) }
        ensures same { OnErr result (Same self.old self.new) }
    {
        self.eights.insert(at as u64 / 8, v)?;
        set_marks(&mut self.marks, at, 8, Mark::Eight);
        Ok(())
    }

    /// Writes the four fragments of a value at a multiple of 4.
    pub(crate) fn put_four(&mut self, at: usize, v: Value) -> Result<(), NoMemory>
        requires fits { at + 4 ≤ length self.old.bytes }
        requires aligned { at % 4 ≡ 0 }
        ensures writes { OnOk result (Writes self.old self.new at (parts_from v 0 4 4)) }
        ensures same { OnErr result (Same self.old self.new) }
    {
        self.fours.insert(at as u64 / 4, v)?;
        set_marks(&mut self.marks, at, 4, Mark::Four);
        Ok(())
    }

    /// Writes a value, or the low bytes of a number, at a multiple of the size. Only a number may have another size than
    /// eight.
    pub(crate) fn store(&mut self, at: usize, size: Size, v: Value) -> Result<(), NoMemory>
        requires fits { at + size_bytes size ≤ length self.old.bytes }
        requires aligned { at % size_bytes size ≡ 0 }
        requires holds { holds size v ≡ true }
        ensures writes { OnOk result (Writes self.old self.new at (cells_of (size_bytes size) v)) }
        ensures same { OnErr result (Same self.old self.new) }
    {
        match v {
            Value::Num(n) => {
                self.put_number(at, size, n);
                Ok(())
            }
            _ => self.put_eight(at, v),
        }
    }

    /// Gives the region another size. Cells past its new end are lost, and cells that become new are bytes of zero.
    pub(crate) fn resize(&mut self, size: usize) -> Result<(), NoMemory>
        ensures resized { OnOk result (Resized self.old self.new size) }
        ensures same { OnErr result (Same self.old self.new) }
    {
        let before = self.bytes.len();
        if size <= before {
            self.bytes.truncate(size);
            self.marks.truncate(size);
            return Ok(());
        }
        self.bytes.resize(size, 0)?;
        if self.marks.resize(size, Mark::Byte).is_err() {
            self.bytes.truncate(before);
            return Err(NoMemory);
        }
        Ok(())
    }
}

/// How many bytes a size is.
pub(crate) fn length_of(size: Size) -> usize
    ensures { result ≡ size_bytes size }
{
    match size {
        Size::Byte => 1,
        Size::Word => 2,
        Size::Long => 4,
        Size::Quad => 8,
    }
}
