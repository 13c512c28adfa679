// Bytes in and out, in pieces.
ghost use Rattle.std.specs.Prelude.{◌≡◌, ◌≤◌, ◌<◌, ◌+◌, ◌^◌, ℕ, List, Some, IfOk, OnErr, length};
ghost use Rattle.om_io.specs.Causes.{HasCause};
ghost use Rattle.om_io.specs.Outside.{Appends};
ghost use Rattle.om_value.specs.declared.value.Region.{Region as AnyRegion};
ghost use Rattle.om_symrun.specs.Memory.{memory_size};
ghost use Rattle.om_symrun.specs.Streams.{Takes, TakesPiece};

use crate::memory::Memory;
use om_io::{Failed, Sink, Source};
use om_value::Region;

/// Puts bytes in pieces of 4096, the last one shorter.
pub(crate) fn put_all<S: Sink>(sink: &mut S, bytes: &[u8]) -> Result<(), Failed>
    ensures appends { (old : List ℕ) → S.written sink.old ≡ Some old → Appends old (S.written sink.new) bytes.now result }
    ensures cause { HasCause (S.faults sink.old) (S.faults sink.new) result }
{
    let mut at = 0;
    while at < bytes.len() {
        let end = usize::min(bytes.len(), at + 4096);
        if let Err(failed) = sink.put(&bytes[at..end]) {
            return Err(failed);
        }
        at = end;
    }
    Ok(())
}

/// Takes bytes of the source, at most as many as the buffer has, to a place of a region, and says how many.
fn take_into<S: Source>(
    source: &mut S,
    memory: &mut Memory,
    region: Region,
    at: u64,
    buf: &mut [u8],
) -> Result<u64, Failed>
    requires some { 0 < length buf.old }
    requires fits { at + length buf.old ≤ memory_size memory.old region }
    ensures sizes { (r : AnyRegion) → memory_size memory.new r ≡ memory_size memory.old r }
    ensures most { IfOk result (λ taken. taken ≤ length buf.old) }
    ensures taken { (bytes : List ℕ) → S.left source.old ≡ Some bytes
        → TakesPiece memory.old memory.new region at bytes (S.left source.new) result }
    ensures cause { HasCause (S.faults source.old) (S.faults source.new) result }
{
    match source.read(buf) {
        Err(failed) => Err(failed),
        Ok(taken) => {
            memory.write(region, at, &buf[..taken]);
            Ok(taken as u64)
        }
    }
}

/// Takes at most so many bytes of the source, and at most 4096, to a place of a region, and says how many.
fn take_piece<S: Source>(
    source: &mut S,
    memory: &mut Memory,
    region: Region,
    at: u64,
    most: u64,
) -> Result<u64, Failed>
    requires some { 0 < most }
    requires fits { at + most ≤ memory_size memory.old region }
    ensures sizes { (r : AnyRegion) → memory_size memory.new r ≡ memory_size memory.old r }
    ensures most { IfOk result (λ taken. taken ≤ most) }
    ensures taken { (bytes : List ℕ) → S.left source.old ≡ Some bytes
        → TakesPiece memory.old memory.new region at bytes (S.left source.new) result }
    ensures cause { HasCause (S.faults source.old) (S.faults source.new) result }
{
    let mut buf = [0u8; 4096];
    let room = u64::min(most, 4096) as usize;
    let taken = take_into(source, memory, region, at, &mut buf[..room]);
    taken
}

/// Takes bytes of the source to a place of a region until there are `count` or the input ends, and says how many.
pub(crate) fn take_all<S: Source>(
    source: &mut S,
    memory: &mut Memory,
    region: Region,
    at: u64,
    count: u64,
) -> Result<u64, Failed>
    requires fits { at + count ≤ memory_size memory.old region }
    requires small { at + count < 2 ^ 64 }
    ensures sizes { (r : AnyRegion) → memory_size memory.new r ≡ memory_size memory.old r }
    ensures taken { (bytes : List ℕ) → S.left source.old ≡ Some bytes
        → Takes memory.old memory.new region at count bytes (S.left source.new) result }
    ensures cause { HasCause (S.faults source.old) (S.faults source.new) result }
{
    let mut taken = 0;
    while taken < count {
        match take_piece(source, memory, region, at + taken, count - taken) {
            Err(failed) => return Err(failed),
            Ok(0) => return Ok(taken),
            Ok(got) => taken += got,
        }
    }
    Ok(taken)
}
