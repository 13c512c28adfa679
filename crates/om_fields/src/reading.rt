// Numbers at places of a file. All numbers of the ECOFF object format are little-endian here.
ghost use Rattle.std.specs.Prelude.{◌≡◌, ◌≤◌, ◌+◌, ◌*◌, ◌<◌, ◌^◌, ℕ, length, slice_index, IfOk};
ghost use Rattle.byteorder.specs.Endian.{little_from};
ghost use Rattle.om_fields.specs.Bytes.{words_at};

use byteorder::{ByteOrder, LittleEndian};
use om_io::NoMemory;
use std::alloc::Global;

/// The number in the two bytes of a file from the byte offset `at` on, the low byte first.
pub fn u16_at(bytes: &[u8], at: usize) -> u16
    requires { at + 2 ≤ length bytes.now }
    ensures { result ≡ little_from at 2 bytes.now }
{
    LittleEndian::read_u16(&bytes[at..])
}

/// The number in the four bytes of a file from the byte offset `at` on, the low byte first.
pub fn u32_at(bytes: &[u8], at: usize) -> u32
    requires { at + 4 ≤ length bytes.now }
    ensures { result ≡ little_from at 4 bytes.now }
{
    LittleEndian::read_u32(&bytes[at..])
}

/// The number in the eight bytes of a file from the byte offset `at` on, the low byte first.
pub fn u64_at(bytes: &[u8], at: usize) -> u64
    requires { at + 8 ≤ length bytes.now }
    ensures { result ≡ little_from at 8 bytes.now }
{
    LittleEndian::read_u64(&bytes[at..])
}

/// The `count` words of four bytes each that stand one after the other from the byte offset `at` on.
/// `NoMemory` where there is no room for them.
pub fn read_words(
    alloc: Global,
    bytes: &[u8],
    at: usize,
    count: usize,
) -> Result<Vec<u32>, NoMemory>
    requires { at + 4 * count ≤ length bytes.now }
    ensures words { IfOk result (λ words. words.items ≡ words_at at count bytes.now) }
    ensures count { IfOk result (λ words. length words.items ≡ count) }
    ensures fits { IfOk result (λ words. (k : ℕ) → slice_index words.items k < 2 ^ 32) }
{
    let mut words = Vec::with_capacity(alloc, count)?;
    for i in 0..count {
        words.push(u32_at(bytes, at + 4 * i))?;
    }
    Ok(words)
}
