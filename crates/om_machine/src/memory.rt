// The memory of a run: the data, the stack and the heap.
ghost use Rattle.std.specs.Prelude.{◌≡◌, ◌≤◌, ◌<◌, ◌+◌, ◌-◌, ◌^◌, ℕ, IsTrue, IsSome, IfSome, IfOk, length, is_some, slice_index, if◌then◌else◌, nat_le};
ghost use Rattle.byteorder.specs.Endian.{little_from, little_bytes};
ghost use Rattle.om_isa.specs.SystemCall.{heap_limit, resized};
ghost use Rattle.om_image.specs.Layout.{data_base, data_limit};
ghost use Rattle.om_image.specs.NumState.{heap_base};
ghost use Rattle.om_image.specs.NumAccess.{size_bytes, lies_in, is_mapped, number_in, bytes_from};
ghost use Rattle.om_machine.specs.Memory.{IsSpot, IsZeros, memory_of, Splices, Writes};

use om_alpha::Size;
use om_fields::{u16_at, u32_at, u64_at};
use om_io::NoMemory;
use std::alloc::Global;
use std::marker::Model;

const DATA_BASE: u64 = 0x1_4000_0000;

const STACK_BASE: u64 = 0x1_1ff0_0000;

const STACK_SIZE: u64 = 0x10_0000;

const HEAP_BASE: u64 = 0x1_6000_0000;

const HEAP_LIMIT: u64 = 0x100_0000;

/// The bytes of the data, the stack and the heap. Those of the heap are all there from the start; past its size they
/// are zero.
#[derive(Drop)]
pub(crate) struct Memory {
    bytes: Vec<u8>,
    stack: Vec<u8>,
    heap: Vec<u8>,
    heap_size: u64,
}

impl Model for Memory {
    ghost use Rattle.om_machine.specs.Mapped.{Mapped, IsMapped};

    ghost Value = { Mapped };

    ghost view = { λ m. record { bytes = m.bytes.items; stack = m.stack.items; heap = m.heap.items; heap_size = m.heap_size } };

    ghost invariant = { λ m. IsMapped m.bytes.items m.stack.items m.heap.items m.heap_size };
}

/// Where an address lies: in the data, the stack or the heap, so many bytes behind its start.
#[derive(Clone, Copy, PartialEq, Eq, Debug)]
enum Spot {
    Data(usize),
    Stack(usize),
    Heap(usize),
}

/// How many bytes a size is.
fn bytes_of(size: Size) -> u64
    ensures value { result ≡ size_bytes size }
    ensures small { result ≤ 8 }
{
    match size {
        Size::Byte => 1,
        Size::Word => 2,
        Size::Long => 4,
        Size::Quad => 8,
    }
}

fn lies_within(base: u64, size: u64, address: u64, n: u64) -> bool
    requires { base + size < 2 ^ 64 }
    ensures { result ≡ lies_in base size address n }
{
    base <= address && u128::from(address) + u128::from(n) <= u128::from(base + size)
}

fn number_at(bytes: &[u8], at: usize, size: Size) -> u64
    requires { at + size_bytes size ≤ length bytes.now }
    ensures { result ≡ little_from at (size_bytes size) bytes.now }
{
    match size {
        Size::Byte => u64::from(bytes[at]),
        Size::Word => u64::from(u16_at(bytes, at)),
        Size::Long => u64::from(u32_at(bytes, at)),
        Size::Quad => u64_at(bytes, at),
    }
}

fn put_bytes(bytes: &mut [u8], at: usize, piece: &[u8])
    requires { at + length piece.now ≤ length bytes.old }
    ensures { Splices bytes.old bytes.new at piece.now }
{
    bytes[at..at + piece.len()].copy_from_slice(piece);
}

fn low_byte(n: u64) -> [u8; 1]
    ensures { result ≡ little_bytes 1 n }
{
    [(n % 0x100) as u8]
}

#[tactic(auto, using(crate::proofs::Ranges::two_bytes))]
fn low_word(n: u64) -> [u8; 2]
    ensures { result ≡ little_bytes 2 n }
{
    ((n % 0x1_0000) as u16).to_le_bytes()
}

#[tactic(auto, using(crate::proofs::Ranges::four_bytes))]
fn low_long(n: u64) -> [u8; 4]
    ensures { result ≡ little_bytes 4 n }
{
    ((n % 0x1_0000_0000) as u32).to_le_bytes()
}

fn clear(bytes: &mut [u8], from: usize, to: usize)
    requires within { to ≤ length bytes.old }
    requires ordered { from ≤ to }
    ensures length { length bytes.new ≡ length bytes.old }
    ensures zero { (k : ℕ) → from ≤ k → k < to → slice_index bytes.new k ≡ 0 }
    ensures before { (k : ℕ) → k < from → slice_index bytes.new k ≡ slice_index bytes.old k }
    ensures behind { (k : ℕ) → to ≤ k → slice_index bytes.new k ≡ slice_index bytes.old k }
{
    bytes[from..to].fill(0);
}

/// So many bytes of zero.
fn zeros(alloc: Global, count: usize) -> Result<Vec<u8>, NoMemory>
    ensures { IfOk result (λ v. IsZeros v.items count) }
{
    let bytes = vec![in alloc; 0u8; count]?;
    Ok(bytes)
}

impl Memory {
    /// The memory at the start of a run: the data and the zeros behind it; the stack and the heap are zero.
    pub(crate) fn new(alloc: Global, bytes: &[u8], bss: u64) -> Result<Memory, NoMemory>
        requires { length bytes.now + bss ≤ data_limit }
        ensures data { IfOk result (λ m. length m.bytes ≡ length bytes.now + bss) }
        ensures heap { IfOk result (λ m. m.heap_size ≡ 0) }
        ensures places { IfOk result (λ m. (a : ℕ) → memory_of m a ≡ (if nat_le data_base a then slice_index bytes.now (a - data_base) else 0)) }
    {
        let count = bytes.len() + bss as usize;
        let mut all = zeros(alloc, count)?;
        put_bytes(&mut all, 0, bytes);
        let stack = zeros(alloc, STACK_SIZE as usize)?;
        let heap = zeros(alloc, HEAP_LIMIT as usize)?;
        Ok(Memory {
            bytes: all,
            stack,
            heap,
            heap_size: 0,
        })
    }

    /// How many bytes the heap has.
    pub(crate) fn heap_size(&self) -> u64
        ensures value { result ≡ self.now.heap_size }
        ensures range { result ≤ heap_limit }
    {
        self.heap_size
    }

    fn spot(&self, address: u64, n: u64) -> Option<Spot>
        ensures mapped { is_some result ≡ is_mapped (length self.now.bytes) self.now.heap_size address n }
        ensures found { IfSome result (IsSpot self.now address n) }
        ensures bound { IsSome result → address + n < 2 ^ 63 }
    {
        if lies_within(DATA_BASE, self.bytes.len() as u64, address, n) {
            Some(Spot::Data((address - DATA_BASE) as usize))
        } else if lies_within(STACK_BASE, STACK_SIZE, address, n) {
            Some(Spot::Stack((address - STACK_BASE) as usize))
        } else if lies_within(HEAP_BASE, self.heap_size, address, n) {
            Some(Spot::Heap((address - HEAP_BASE) as usize))
        } else {
            None
        }
    }

    /// Whether so many bytes at an address are mapped.
    pub(crate) fn is_mapped(&self, address: u64, n: u64) -> bool
        ensures bound { IsTrue result → address + n < 2 ^ 63 }
        ensures value { result ≡ is_mapped (length self.now.bytes) self.now.heap_size address n }
    {
        self.spot(address, n).is_some()
    }

    /// Whether what an access moves is mapped.
    pub(crate) fn maps(&self, address: u64, size: Size) -> bool
        ensures { result ≡ is_mapped (length self.now.bytes) self.now.heap_size address (size_bytes size) }
    {
        self.is_mapped(address, bytes_of(size))
    }

    /// The number at an address, or `None` exactly where it is not mapped.
    pub(crate) fn load(&self, address: u64, size: Size) -> Option<u64>
        ensures mapped { is_some result ≡ is_mapped (length self.now.bytes) self.now.heap_size address (size_bytes size) }
        ensures value { IfSome result (λ n. n ≡ number_in (memory_of self.now) address (size_bytes size)) }
    {
        match self.spot(address, bytes_of(size)) {
            Some(Spot::Data(at)) => Some(number_at(&self.bytes, at, size)),
            Some(Spot::Stack(at)) => Some(number_at(&self.stack, at, size)),
            Some(Spot::Heap(at)) => Some(number_at(&self.heap, at, size)),
            None => None,
        }
    }

    /// So many bytes at an address, or `None` exactly where they are not mapped.
    pub(crate) fn bytes_at(&self, address: u64, n: u64) -> Option<&[u8]>
        ensures mapped { is_some result ≡ is_mapped (length self.now.bytes) self.now.heap_size address n }
        ensures value { IfSome result (λ bytes. bytes.now ≡ bytes_from (memory_of self.now) address n) }
    {
        match self.spot(address, n) {
            Some(Spot::Data(at)) => Some(&self.bytes[at..at + n as usize]),
            Some(Spot::Stack(at)) => Some(&self.stack[at..at + n as usize]),
            Some(Spot::Heap(at)) => Some(&self.heap[at..at + n as usize]),
            None => None,
        }
    }

    /// Stores bytes at an address that is mapped.
    pub(crate) fn write(&mut self, address: u64, piece: &[u8])
        requires { IsTrue (is_mapped (length self.old.bytes) self.old.heap_size address (length piece.now)) }
        ensures { Writes self.old self.new address piece.now }
    {
        match self.spot(address, piece.len() as u64) {
            Some(Spot::Data(at)) => put_bytes(&mut self.bytes, at, piece),
            Some(Spot::Stack(at)) => put_bytes(&mut self.stack, at, piece),
            Some(Spot::Heap(at)) => put_bytes(&mut self.heap, at, piece),
            None => {}
        }
    }

    /// Stores the low bytes of a number at an address that is mapped.
    pub(crate) fn store(&mut self, address: u64, size: Size, n: u64)
        requires { IsTrue (is_mapped (length self.old.bytes) self.old.heap_size address (size_bytes size)) }
        ensures { Writes self.old self.new address (little_bytes (size_bytes size) n) }
    {
        match size {
            Size::Byte => self.write(address, &low_byte(n)),
            Size::Word => self.write(address, &low_word(n)),
            Size::Long => self.write(address, &low_long(n)),
            Size::Quad => self.write(address, &n.to_le_bytes()),
        }
    }

    /// Gives the heap another size. Bytes past its new end are lost, and bytes that become new are zero.
    pub(crate) fn resize(&mut self, size: u64)
        requires { size ≤ heap_limit }
        ensures size { self.new.heap_size ≡ size }
        ensures data { length self.new.bytes ≡ length self.old.bytes }
        ensures places { (a : ℕ) → memory_of self.new a ≡ (if nat_le heap_base a
            then resized 0 self.old.heap_size size (λ k. memory_of self.old (heap_base + k)) (a - heap_base)
            else memory_of self.old a) }
    {
        let end = u64::max(self.heap_size, size) as usize;
        clear(&mut self.heap, size as usize, end);
        self.heap_size = size;
    }
}
