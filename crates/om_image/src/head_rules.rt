// The rules 1 to 6 on the headers of images, each as the least place where it is broken: a byte offset in the file.
ghost use Rattle.std.specs.Prelude.{◌≡◌, ◌≢◌, ◌≤◌, ◌<◌, ◌+◌, ◌*◌, ℕ, false, length, IfNone};
ghost use Rattle.om_fields.specs.Places.{least, bytes_at, is_past as runs_out};
ghost use Rattle.om_fields.specs.Rules.{first_fault};
ghost use Rattle.om_fields.specs.HeaderFields.{section_count as count_of, rule_1, rule_2, rule_3};
ghost use Rattle.om_image.specs.Rules.{section_address as address_at, section_size as size_at, section_place as place_at, section_bytes as bytes_of, name_of, address_of, is_uneven as uneven, is_oversized as oversized, breaks_head as breaks, heads_where, rule_4, head_rules};
ghost use Rattle.om_image.specs.declared.part.HeadRule.TheVariants.{Named, Inside, Placed};

use crate::part::HeadRule;
use om_fields::{is_past, u16_at, u64_at};

// The place of a section's header in a file.
const HEADS: usize = 104;

/// The size in bytes that the `k`-th section header says.
pub fn section_size(bytes: &[u8], k: usize) -> u64
    requires head { k < 4 }
    requires long { 360 ≤ length bytes.now }
    ensures { result ≡ size_at bytes.now k }
{
    u64_at(bytes, HEADS + 64 * k + 24)
}

/// The byte offset in the file that the `k`-th section header says.
pub fn section_place(bytes: &[u8], k: usize) -> u64
    requires head { k < 4 }
    requires long { 360 ≤ length bytes.now }
    ensures { result ≡ place_at bytes.now k }
{
    u64_at(bytes, HEADS + 64 * k + 32)
}

// The bytes of a range that does not pass the end; an empty one may begin anywhere.
fn piece(bytes: &[u8], at: u64, size: u64) -> &[u8]
    requires { runs_out (length bytes.now) at size ≡ false }
    ensures bytes { result.now ≡ bytes_at bytes.now at size }
    ensures length { length result.now ≡ size }
{
    if size == 0 {
        return &bytes[..0];
    }
    &bytes[at as usize..][..size as usize]
}

/// The bytes of the `k`-th section, which lie in the file.
pub fn section_bytes(bytes: &[u8], k: usize) -> &[u8]
    requires head { k < 4 }
    requires held { k ≢ 2 }
    requires long { 360 ≤ length bytes.now }
    requires inside { breaks Inside bytes.now k ≡ false }
    ensures bytes { result.now ≡ bytes_of bytes.now k }
    ensures length { length result.now ≡ size_at bytes.now k }
{
    piece(bytes, section_place(bytes, k), section_size(bytes, k))
}

// The names of the four sections, in order.
fn section_name(k: usize) -> &'static [u8; 8]
    ensures { result.now ≡ name_of k }
{
    if k == 0 {
        b".text\0\0\0"
    } else if k == 1 {
        b".data\0\0\0"
    } else if k == 2 {
        b".bss\0\0\0\0"
    } else {
        b".ommap\0\0"
    }
}

// Whether the `k`-th section has another name.
fn is_misnamed(bytes: &[u8], k: usize) -> bool
    requires head { k < 4 }
    requires long { 360 ≤ length bytes.now }
    ensures { result ≡ breaks Named bytes.now k }
{
    let at = HEADS + 64 * k;
    section_name(k).as_slice() != &bytes[at..][..8]
}

// Whether the bytes of the `k`-th section run past the end.
fn runs_past(bytes: &[u8], k: usize) -> bool
    requires head { k < 4 }
    requires long { 360 ≤ length bytes.now }
    ensures { result ≡ breaks Inside bytes.now k }
{
    k != 2 && is_past(bytes.len(), section_place(bytes, k), section_size(bytes, k))
}

// The address that the `k`-th section has.
fn address(bytes: &[u8], k: usize) -> u128
    requires long { 360 ≤ length bytes.now }
    ensures { result ≡ address_of bytes.now k }
{
    if k == 0 {
        0x1_2000_0000
    } else if k == 1 {
        0x1_4000_0000
    } else if k == 2 {
        0x1_4000_0000 + u128::from(section_size(bytes, 1))
    } else {
        0
    }
}

// Whether the text's size is none of a text.
fn is_uneven(size: u64) -> bool
    ensures { result ≡ uneven size }
{
    size % 4 != 0 || 16_777_216 < size
}

// Whether the size of the `k`-th section is too large or uneven.
fn is_oversized(bytes: &[u8], k: usize) -> bool
    requires long { 360 ≤ length bytes.now }
    ensures { result ≡ oversized bytes.now k }
{
    if k == 0 {
        is_uneven(section_size(bytes, 0))
    } else {
        k == 1
            && 67_108_864 < u128::from(section_size(bytes, 1)) + u128::from(section_size(bytes, 2))
    }
}

// Whether the `k`-th section has another address, or a size that is too large or uneven.
fn is_misplaced(bytes: &[u8], k: usize) -> bool
    requires head { k < 4 }
    requires long { 360 ≤ length bytes.now }
    ensures { result ≡ breaks Placed bytes.now k }
{
    u128::from(u64_at(bytes, HEADS + 64 * k + 16)) != address(bytes, k) || is_oversized(bytes, k)
}

// Whether the `k`-th section header breaks a rule.
fn breaks_head(bytes: &[u8], rule: HeadRule, k: usize) -> bool
    requires head { k < 4 }
    requires long { 360 ≤ length bytes.now }
    ensures { result ≡ breaks rule bytes.now k }
{
    match rule {
        HeadRule::Named => is_misnamed(bytes, k),
        HeadRule::Inside => runs_past(bytes, k),
        HeadRule::Placed => is_misplaced(bytes, k),
    }
}

/// The place of the first section header that breaks a rule.
pub fn first_head(bytes: &[u8], rule: HeadRule) -> Option<u64>
    requires long { 360 ≤ length bytes.now }
    ensures gives { result ≡ least (heads_where rule bytes.now) }
    ensures none { IfNone result ((k : ℕ) → k < 4 → breaks rule bytes.now k ≡ false) }
{
    for k in 0..4 {
        if breaks_head(bytes, rule, k) {
            return Some(HEADS as u64 + 64 * k as u64);
        }
    }
    None
}

// Rule 1: shorter than a file header, or another magic number than that of Alpha.
fn no_header(bytes: &[u8]) -> Option<u64>
    ensures gives { result ≡ least (rule_1 bytes.now) }
    ensures long { IfNone result (24 ≤ length bytes.now) }
{
    if bytes.len() < 24 || u16_at(bytes, 0) != 0x0183 {
        return Some(0);
    }
    None
}

// Rule 2: the optional header has another size.
fn other_header(bytes: &[u8]) -> Option<u64>
    requires { 24 ≤ length bytes.now }
    ensures gives { result ≡ least (rule_2 bytes.now) }
{
    if u16_at(bytes, 20) != 80 {
        return Some(20);
    }
    None
}

// How many sections the file header counts.
fn section_count(bytes: &[u8]) -> usize
    requires { 24 ≤ length bytes.now }
    ensures gives { result ≡ count_of bytes.now }
    ensures small { result < 65536 }
{
    usize::from(u16_at(bytes, 2))
}

// Rule 3: too short for the section headers.
fn no_headers(bytes: &[u8]) -> Option<u64>
    requires { 24 ≤ length bytes.now }
    ensures gives { result ≡ least (rule_3 bytes.now) }
    ensures long { IfNone result (104 + 64 * count_of bytes.now ≤ length bytes.now) }
{
    if bytes.len() < 104 + 64 * section_count(bytes) {
        return Some(24);
    }
    None
}

// Rule 4: another number of sections than four, or another name.
fn other_section(bytes: &[u8]) -> Option<u64>
    requires long { 24 ≤ length bytes.now }
    requires all { 104 + 64 * count_of bytes.now ≤ length bytes.now }
    ensures gives { result ≡ least (rule_4 bytes.now) }
    ensures four { IfNone result (360 ≤ length bytes.now) }
{
    if section_count(bytes) != 4 {
        return Some(2);
    }
    first_head(bytes, HeadRule::Named)
}

/// The first fault by the rules 1 to 4: the least broken rule and its least place. Where there is none, there are four
/// section headers.
pub fn head_fault(bytes: &[u8]) -> Option<(u8, u64)>
    ensures gives { result ≡ first_fault head_rules bytes.now }
    ensures long { IfNone result (360 ≤ length bytes.now) }
{
    if let Some(at) = no_header(bytes) {
        return Some((1, at));
    }
    if let Some(at) = other_header(bytes) {
        return Some((2, at));
    }
    if let Some(at) = no_headers(bytes) {
        return Some((3, at));
    }
    if let Some(at) = other_section(bytes) {
        return Some((4, at));
    }
    None
}
