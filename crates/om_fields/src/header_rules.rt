// The rules on headers, each as the least place where it is broken: a byte offset in the file. Offsets are those of the
// ECOFF object format for Alpha: section headers of 64 bytes stand from 104 on.
ghost use Rattle.std.specs.Prelude.{◌≡◌, ◌≤◌, ◌<◌, ◌+◌, ◌*◌, ◌^◌, length, IfNone, IfOk};
ghost use Rattle.om_fields.specs.Places.{least, is_past as runs_out};
ghost use Rattle.om_fields.specs.Rules.{first_fault};
ghost use Rattle.om_fields.specs.HeaderFields.{section_count as count_of, header_at, number_of, runs_past, is_other, has_bytes, rule_1, rule_2, rule_3, rule_4, rule_6, rule_24, head_extent as extent_of, header_rules, early_rules, field_rules};

use crate::extents::{Extent, add_loaded, is_out_of_place};
use crate::reading::{u16_at, u64_at};
use crate::sections::{is_passed_over, section_number};
use om_io::NoMemory;
use std::alloc::Global;

// Rule 1: shorter than a file header, or another magic number than that of Alpha.
fn no_header(bytes: &[u8]) -> Option<u64>
    ensures gives { result ≡ least (rule_1 bytes.now) }
    ensures long { IfNone result (24 ≤ length bytes.now) }
{
    if bytes.len() < 24 || u16_at(bytes, 0) != 0x0183 {
        return Some(0);
    }
    None
}

// Rule 2: the optional header has another size.
fn other_header(bytes: &[u8]) -> Option<u64>
    requires { 24 ≤ length bytes.now }
    ensures gives { result ≡ least (rule_2 bytes.now) }
{
    if u16_at(bytes, 20) != 80 {
        return Some(20);
    }
    None
}

/// How many sections the file header counts, whether their headers lie in the file or not.
pub fn section_count(bytes: &[u8]) -> usize
    requires { 24 ≤ length bytes.now }
    ensures gives { result ≡ count_of bytes.now }
    ensures small { result < 65536 }
{
    usize::from(u16_at(bytes, 2))
}

// Rule 3: too short for the section headers.
fn no_headers(bytes: &[u8]) -> Option<u64>
    requires { 24 ≤ length bytes.now }
    ensures gives { result ≡ least (rule_3 bytes.now) }
    ensures long { IfNone result (104 + 64 * count_of bytes.now ≤ length bytes.now) }
{
    if bytes.len() < 104 + 64 * section_count(bytes) {
        return Some(24);
    }
    None
}

/// The number of the section with the `k`-th header, if it is a loaded one.
pub fn number(bytes: &[u8], k: usize) -> Option<u8>
    requires small { k < 65536 }
    requires inside { 168 + 64 * k ≤ length bytes.now }
    ensures gives { result ≡ number_of bytes.now k }
{
    let at = 104 + 64 * k;
    section_number(&bytes[at..][..8])
}

// Whether a section of that number has bytes in the file: `.sbss`, 5, and `.bss`, 6, have none.
fn holds_bytes(number: Option<u8>) -> bool
    ensures gives { result ≡ has_bytes number }
{
    match number {
        None => false,
        Some(n) => !(n == 5 || n == 6),
    }
}

/// Whether a range of `size` bytes from the offset `at` on passes the end of a file of `length` bytes. An empty range
/// never does, wherever it begins.
pub fn is_past(length: usize, at: u64, size: u64) -> bool
    ensures gives { result ≡ runs_out length at size }
{
    0 < size && (length as u128) < u128::from(at) + u128::from(size)
}

// Whether the section with the `k`-th header is a loaded one with bytes and runs past the end.
fn section_runs_past(bytes: &[u8], k: usize) -> bool
    requires small { k < 65536 }
    requires inside { 168 + 64 * k ≤ length bytes.now }
    ensures gives { result ≡ runs_past bytes.now k }
{
    let at = 104 + 64 * k;
    holds_bytes(number(bytes, k))
        && is_past(bytes.len(), u64_at(bytes, at + 32), u64_at(bytes, at + 24))
}

// Whether the section with the `k`-th header is neither loaded nor passed over, and not empty.
fn is_other_section(bytes: &[u8], k: usize) -> bool
    requires small { k < 65536 }
    requires inside { 168 + 64 * k ≤ length bytes.now }
    ensures gives { result ≡ is_other bytes.now k }
{
    let at = 104 + 64 * k;
    if number(bytes, k).is_some() {
        return false;
    }
    if is_passed_over(&bytes[at..][..8]) {
        return false;
    }
    0 < u64_at(bytes, at + 24)
}

// Rule 4: a loaded section with bytes runs past the end.
fn past_end(bytes: &[u8]) -> Option<u64>
    requires long { 24 ≤ length bytes.now }
    requires all { 104 + 64 * count_of bytes.now ≤ length bytes.now }
    ensures gives { result ≡ least (rule_4 bytes.now) }
{
    for k in 0..section_count(bytes) {
        if section_runs_past(bytes, k) {
            return Some(104 + 64 * k as u64);
        }
    }
    None
}

/// The least place where rule 24 is broken: the byte offset of the header of a section that is neither loaded nor passed
/// over and has a size above 0.
pub fn other_section(bytes: &[u8]) -> Option<u64>
    requires long { 24 ≤ length bytes.now }
    requires all { 104 + 64 * count_of bytes.now ≤ length bytes.now }
    ensures gives { result ≡ least (rule_24 bytes.now) }
{
    for k in 0..section_count(bytes) {
        if is_other_section(bytes, k) {
            return Some(104 + 64 * k as u64);
        }
    }
    None
}

// Where the section with the `k`-th header lies.
fn head_extent(bytes: &[u8], k: usize) -> Extent
    requires small { k < 65536 }
    requires inside { 168 + 64 * k ≤ length bytes.now }
    ensures { result ≡ extent_of bytes.now k }
{
    let at = 104 + 64 * k;
    Extent {
        number: number(bytes, k),
        addr: u64_at(bytes, at + 16),
        size: u64_at(bytes, at + 24),
    }
}

/// The least place where rule 6 is broken: the byte offset of the header of a loaded section that has the number of an
/// earlier one, ends past 2^63, or shares an address with an earlier one. Each section is compared with at most ten,
/// however many there are.
pub fn misplaced_section(alloc: Global, bytes: &[u8]) -> Result<Option<u64>, NoMemory>
    requires long { 24 ≤ length bytes.now }
    requires all { 104 + 64 * count_of bytes.now ≤ length bytes.now }
    ensures { IfOk result (λ at. at ≡ least (rule_6 bytes.now)) }
{
    let mut loaded = Vec::new(alloc);
    for k in 0..section_count(bytes) {
        let extent = head_extent(bytes, k);
        if is_out_of_place(&loaded, &extent) {
            return Ok(Some(104 + 64 * k as u64));
        }
        add_loaded(&mut loaded, extent)?;
    }
    Ok(None)
}

/// The first fault of the headers by the rules 1 to 4: the least broken rule and its least place. Where there is none, all
/// section headers lie in the file.
pub fn header_fault(bytes: &[u8]) -> Option<(u8, u64)>
    ensures gives { result ≡ first_fault header_rules bytes.now }
    ensures all { IfNone result (104 + 64 * count_of bytes.now ≤ length bytes.now) }
{
    if let Some(at) = no_header(bytes) {
        return Some((1, at));
    }
    if let Some(at) = other_header(bytes) {
        return Some((2, at));
    }
    if let Some(at) = no_headers(bytes) {
        return Some((3, at));
    }
    if let Some(at) = past_end(bytes) {
        return Some((4, at));
    }
    None
}

/// The first fault of the headers by the rules 1 to 4 and 6: the least broken rule and its least place.
pub fn early_fault(alloc: Global, bytes: &[u8]) -> Result<Option<(u8, u64)>, NoMemory>
    ensures gives { IfOk result (λ fault. fault ≡ first_fault early_rules bytes.now) }
    ensures all { IfOk result (λ fault. IfNone fault (104 + 64 * count_of bytes.now ≤ length bytes.now)) }
{
    if let Some(fault) = header_fault(bytes) {
        return Ok(Some(fault));
    }
    if let Some(at) = misplaced_section(alloc, bytes)? {
        return Ok(Some((6, at)));
    }
    Ok(None)
}

/// The first fault of the headers by the rules 1 to 4, 6 and 24: the least broken rule and its least place.
pub fn field_fault(alloc: Global, bytes: &[u8]) -> Result<Option<(u8, u64)>, NoMemory>
    ensures gives { IfOk result (λ fault. fault ≡ first_fault field_rules bytes.now) }
    ensures all { IfOk result (λ fault. IfNone fault (104 + 64 * count_of bytes.now ≤ length bytes.now)) }
{
    if let Some(fault) = early_fault(alloc, bytes)? {
        return Ok(Some(fault));
    }
    if let Some(at) = other_section(bytes) {
        return Ok(Some((24, at)));
    }
    Ok(None)
}
