// Blocks of bytes one after the other, each that is not empty at the next multiple of a number.
ghost use Rattle.std.specs.Prelude.{◌≡◌, ◌+◌, ◌-◌, ◌*◌, ◌^◌, ◌<◌, ◌≤◌, length, OnOk, IfOk};
ghost use Rattle.om_fields.specs.Bytes.{Grows, zeros};
ghost use Rattle.om_fields.specs.Places.{round_up as rounded};
ghost use Rattle.om_objwrite.specs.Written.{block_place as place_of, block_end as end_of, block_gap, block};

use om_fields::push_zeros;
use om_io::NoMemory;

/// The least multiple of `to` that is at least `n`.
#[tactic(auto, using(crate::proofs::Rounding::rounded_above, crate::proofs::Rounding::rounded_below))]
pub fn round_up(n: u64, to: u64) -> u64
    requires some { 0 < to }
    requires small { to < 2 ^ 16 }
    requires low { n < 2 ^ 62 }
    ensures value { result ≡ rounded n to }
    ensures above { n ≤ result }
    ensures below { result < n + to }
{
    (n + (to - 1)) / to * to
}

/// Where a block of `size` bytes begins that follows the place `at`; 0 where it is empty.
pub fn block_place(at: u64, to: u64, size: u64) -> u64
    requires some { 0 < to }
    requires small { to < 2 ^ 16 }
    requires low { at < 2 ^ 62 }
    ensures { result ≡ place_of to at size }
{
    if size == 0 { 0 } else { round_up(at, to) }
}

/// Where a block of `size` bytes ends that follows the place `at`.
pub fn block_end(at: u64, to: u64, size: u64) -> u64
    requires some { 0 < to }
    requires small { to < 2 ^ 16 }
    requires low { at < 2 ^ 62 }
    requires fits { end_of to at size < 2 ^ 62 }
    ensures { result ≡ end_of to at size }
{
    if size == 0 {
        at
    } else {
        round_up(at, to) + size
    }
}

/// Appends the bytes as a block that follows the place `at`, behind zeros up to its own place. It gives back
/// where the block ends.
pub fn push_block(out: &mut Vec<u8>, at: u64, to: u64, bytes: &[u8]) -> Result<u64, NoMemory>
    requires some { 0 < to }
    requires small { to < 2 ^ 16 }
    requires low { at < 2 ^ 62 }
    requires fits { end_of to at (length bytes.now) < 2 ^ 62 }
    ensures block { OnOk result (Grows out.old.items out.new.items (block to at bytes.now)) }
    ensures end { IfOk result (λ end. end ≡ end_of to at (length bytes.now)) }
{
    push_gap(out, at, to, bytes.len() as u64)?;
    out.extend_from_slice(bytes)?;
    Ok(block_end(at, to, bytes.len() as u64))
}

/// Appends the zeros up to where a block of `size` bytes begins that follows the place `at`.
pub fn push_gap(out: &mut Vec<u8>, at: u64, to: u64, size: u64) -> Result<(), NoMemory>
    requires some { 0 < to }
    requires small { to < 2 ^ 16 }
    requires low { at < 2 ^ 62 }
    ensures { OnOk result (Grows out.old.items out.new.items (zeros (block_gap to at size))) }
{
    push_zeros(out, gap(at, to, size) as usize)?;
    Ok(())
}

// How many bytes they are.
fn gap(at: u64, to: u64, size: u64) -> u64
    requires some { 0 < to }
    requires small { to < 2 ^ 16 }
    requires low { at < 2 ^ 62 }
    ensures { result ≡ block_gap to at size }
{
    if size == 0 { 0 } else { round_up(at, to) - at }
}
