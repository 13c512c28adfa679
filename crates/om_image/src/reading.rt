// Images as they are read from files.
ghost use Rattle.std.specs.Prelude.{◌≡◌, ◌≤◌, ◌<◌, ◌+◌, ◌*◌, ◌/◌, ◌^◌, ℕ, true, false, length, IfOk, IfNone};
ghost use Rattle.om_fields.specs.Places.{least, number_at, picked};
ghost use Rattle.om_fields.specs.Rules.{first_fault};
ghost use Rattle.om_image.specs.declared.part.HeadRule.TheVariants.{Inside};
ghost use Rattle.om_image.specs.Rules.{section_size as size_at, section_place as place_at, section_bytes as bytes_of, breaks_head as breaks, is_entry as entry_fits, rule_7, rule_8, rule_9, is_unreadable as unreadable, body_rules, image_rules, image_of};
ghost use Rattle.om_image.specs.MapFields.{is_map as map_fits};
ghost use Rattle.om_image.specs.Shapes.{KeepHeads, IsReadable};
ghost use Rattle.om_image.specs.Answers.{ReadsImage};

use crate::errors::ImageErr;
use crate::head_rules::{first_head, head_fault, section_bytes, section_place, section_size};
use crate::image::Image;
use crate::map_reading::read_map;
use crate::map_rules::is_map;
use crate::part::HeadRule;
use om_fields::{read_words, u32_at, u64_at};
use om_io::{Bytes, Listed, NoMemory};
use om_isa::decode;
use std::alloc::Global;

// Whether an address is that of a word of a text of `size` bytes.
fn is_entry(size: u64, entry: u64) -> bool
    ensures { result ≡ entry_fits size entry }
{
    entry % 4 == 0 && 0x1_2000_0000 <= entry && u128::from(entry) < 0x1_2000_0000 + u128::from(size)
}

// Rule 7: the entry is no word of the text.
fn no_entry(bytes: &[u8]) -> Option<u64>
    requires long { 360 ≤ length bytes.now }
    ensures gives { result ≡ least (rule_7 bytes.now) }
    ensures none { IfNone result (entry_fits (size_at bytes.now 0) (number_at bytes.now 56 8) ≡ true) }
{
    if !is_entry(section_size(bytes, 0), u64_at(bytes, 56)) {
        return Some(56);
    }
    None
}

// Rule 8: the map is none of this image.
fn no_map(bytes: &[u8]) -> Option<u64>
    requires long { 360 ≤ length bytes.now }
    requires inside { KeepHeads bytes.now }
    ensures gives { result ≡ least (rule_8 bytes.now) }
    ensures none { IfNone result (map_fits (size_at bytes.now 0 / 4) (bytes_of bytes.now 3) ≡ true) }
{
    if !is_map(section_bytes(bytes, 3), section_size(bytes, 0) / 4) {
        return Some(section_place(bytes, 3));
    }
    None
}

// Whether the `k`-th word of a text is no instruction.
fn is_unreadable(text: &[u8], k: usize) -> bool
    requires { 4 * k + 4 ≤ length text.now }
    ensures { result ≡ unreadable text.now k }
{
    decode(u32_at(text, 4 * k)).is_none()
}

// The first word of a text, which stands at a place of a file, that is no instruction: its place.
fn first_in(text: &[u8], at: u64) -> Option<u64>
    requires { at + length text.now < 2 ^ 64 }
    ensures gives { result ≡ least (picked (unreadable text.now) (λ k. at + 4 * k) (length text.now / 4)) }
    ensures none { IfNone result ((k : ℕ) → k < length text.now / 4 → unreadable text.now k ≡ false) }
{
    for k in 0..text.len() / 4 {
        if is_unreadable(text, k) {
            return Some(at + 4 * k as u64);
        }
    }
    None
}

// Rule 9: a word of the text is no instruction.
fn no_instruction(bytes: &[u8]) -> Option<u64>
    requires long { 360 ≤ length bytes.now }
    requires inside { KeepHeads bytes.now }
    requires some { 0 < size_at bytes.now 0 }
    ensures gives { result ≡ least (rule_9 bytes.now) }
    ensures none { IfNone result ((k : ℕ) → k < size_at bytes.now 0 / 4 → unreadable (bytes_of bytes.now 0) k ≡ false) }
{
    first_in(section_bytes(bytes, 0), section_place(bytes, 0))
}

// The first fault by the rules 5 to 9 of a file with four section headers.
fn body_fault(bytes: &[u8]) -> Option<(u8, u64)>
    requires { 360 ≤ length bytes.now }
    ensures gives { result ≡ first_fault body_rules bytes.now }
    ensures none { IfNone result (IsReadable bytes.now) }
{
    if let Some(at) = first_head(bytes, HeadRule::Inside) {
        return Some((5, at));
    }
    if let Some(at) = first_head(bytes, HeadRule::Placed) {
        return Some((6, at));
    }
    if let Some(at) = no_entry(bytes) {
        return Some((7, at));
    }
    if let Some(at) = no_map(bytes) {
        return Some((8, at));
    }
    if let Some(at) = no_instruction(bytes) {
        return Some((9, at));
    }
    None
}

// The first fault by all rules of images: the least broken rule and its least place.
#[tactic(auto, using(crate::proofs::Faults::found_first, crate::proofs::Faults::found_later))]
fn image_fault(bytes: &[u8]) -> Option<(u8, u64)>
    ensures gives { result ≡ first_fault image_rules bytes.now }
    ensures none { IfNone result (IsReadable bytes.now) }
{
    if let Some(fault) = head_fault(bytes) {
        return Some(fault);
    }
    body_fault(bytes)
}

// The image of a file that breaks no rule.
fn image_in(alloc: Global, bytes: &[u8]) -> Result<Image, NoMemory>
    requires { IsReadable bytes.now }
    ensures image { IfOk result (λ i. i ≡ image_of bytes.now) }
    ensures small { IfOk result (λ i. length (bytes_of bytes.now 3) < 2 ^ 63) }
{
    let text = section_bytes(bytes, 0);
    let words = read_words(alloc, text, 0, text.len() / 4)?;
    let data = section_bytes(bytes, 1).to_vec(alloc)?;
    let map = read_map(alloc, section_bytes(bytes, 3))?;
    Ok(Image {
        entry: u64_at(bytes, 56),
        gp: u64_at(bytes, 96),
        text: Listed::from_vec(words),
        bytes: Bytes::from_vec(data),
        bss: section_size(bytes, 2),
        map,
    })
}

/// The image in a file that breaks no rule of images, or the least broken rule with its least place, a byte offset in
/// the file.
///
/// Rules 1 to 3 are those of object files: the file header with its magic number, the optional header's size, and room
/// for the section headers (places 0, 20, 24). Rule 4: another number of sections than four (place 2), or another name
/// than `.text`, `.data`, `.bss` and `.ommap` in this order. Rule 5: bytes run past the end. Rule 6: an address is not
/// 0x1_2000_0000, 0x1_4000_0000, the end of the data's bytes, or 0; the text's size is no multiple of 4 or above
/// 16,777,216; or the sizes of `.data` and `.bss` together, at `.data`, are above 67,108,864. These have the place of
/// the section's header. Rule 7: the entry is no word of the text (place 56). Rule 8: the map is none of this image
/// (the place of its bytes). Rule 9: a word of the text is no instruction (its place).
///
/// The image is valid. What its map says of the source is not tested. It takes time linear in the file, and memory for what
/// the image holds, once no rule is broken.
pub fn read_image(alloc: Global, bytes: &[u8]) -> Result<Image, ImageErr>
    ensures { ReadsImage bytes.now result }
{
    if let Some((rule, at)) = image_fault(bytes) {
        return Err(ImageErr::Rule { rule, at });
    }
    Ok(image_in(alloc, bytes)?)
}
