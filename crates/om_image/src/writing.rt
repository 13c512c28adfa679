// A whole image as a file.
ghost use Rattle.std.specs.Prelude.{◌≡◌, ◌+◌, ◌-◌, ◌*◌, ◌^◌, ◌<◌, ◌≤◌, length, OnOk, IfOk};
ghost use Rattle.om_fields.specs.Bytes.{Grows};
ghost use Rattle.om_fields.specs.Places.{round_up};
ghost use Rattle.om_image.specs.Written.{data_place as data_start, map_place as map_start, named_place as named, image_headers, image_body, file_of};
ghost use Rattle.om_image.specs.Valid.{IsValidImage};
ghost use Rattle.om_image.specs.RoundTrip.{ReadsBack};

use crate::image::Image;
use crate::map_writing::{map_size, push_map};
use crate::widths::image_fits;
use om_fields::{
    push_file_header, push_optional_header, push_section_header, push_words, push_zeros,
};
use om_io::{Bytes, NoMemory};
use std::alloc::Global;

// The next multiple of 16.
#[tactic(auto, using(crate::proofs::Rounding::rounded_above, crate::proofs::Rounding::rounded_below))]
fn round_16(n: u64) -> u64
    requires { n < 2 ^ 62 }
    ensures value { result ≡ round_up n 16 }
    ensures above { n ≤ result }
    ensures below { result < n + 16 }
{
    (n + 15) / 16 * 16
}

// Where the data's bytes stand behind a text of so many bytes.
fn data_place(text: u64) -> u64
    requires { text ≤ 16777216 }
    ensures value { result ≡ data_start text }
    ensures above { 368 + text ≤ result }
    ensures below { result < 384 + text }
{
    round_16(368 + text)
}

// Where the map stands behind so many bytes of text and of data.
fn map_place(text: u64, bytes: u64) -> u64
    requires text { text ≤ 16777216 }
    requires bytes { bytes ≤ 67108864 }
    ensures value { result ≡ map_start text bytes }
    ensures above { data_start text + bytes ≤ result }
    ensures below { result < 2 ^ 30 }
{
    round_16(data_place(text) + bytes)
}

// The place that a header names: that of a section of no bytes is 0.
fn named_place(size: u64, place: u64) -> u64
    ensures { result ≡ named size place }
{
    if size == 0 { 0 } else { place }
}

// Appends the headers, by the sizes of the sections in bytes.
#[tactic(auto, unfolding(crate::specs::Written::image_headers))]
fn push_headers(
    out: &mut Vec<u8>,
    entry: u64,
    gp: u64,
    text: u64,
    bytes: u64,
    bss: u64,
    map: u64,
) -> Result<(), NoMemory>
    requires text { text ≤ 16777216 }
    requires bytes { bytes ≤ 67108864 }
    ensures { OnOk result (Grows out.old.items out.new.items (image_headers entry gp text bytes bss map)) }
{
    let text_at = named_place(text, 368);
    let bytes_at = named_place(bytes, data_place(text));
    let map_at = map_place(text, bytes);
    push_file_header(out, 4, 0, 0)?;
    push_optional_header(out, entry, gp)?;
    push_section_header(out, b".text\0\0\0", 0x1_2000_0000, text, text_at, 0, 0)?;
    push_section_header(out, b".data\0\0\0", 0x1_4000_0000, bytes, bytes_at, 0, 0)?;
    push_section_header(out, b".bss\0\0\0\0", 0x1_4000_0000 + bytes, bss, 0, 0, 0)?;
    push_section_header(out, b".ommap\0\0", 0, map, map_at, 0, 0)?;
    Ok(())
}

// Appends the words and the bytes, with zeros in front of each, and the zeros up to the map.
#[tactic(auto, unfolding(crate::specs::Written::image_body))]
fn push_body(out: &mut Vec<u8>, text: &[u32], bytes: &[u8]) -> Result<(), NoMemory>
    requires text { 4 * length text.now ≤ 16777216 }
    requires bytes { length bytes.now ≤ 67108864 }
    ensures { OnOk result (Grows out.old.items out.new.items (image_body text.now bytes.now)) }
{
    let text_size = 4 * text.len() as u64;
    let size = bytes.len() as u64;
    let bytes_at = data_place(text_size);
    let map_at = map_place(text_size, size);
    push_zeros(out, 8)?;
    push_words(out, text)?;
    push_zeros(out, (bytes_at - (368 + text_size)) as usize)?;
    out.extend_from_slice(bytes)?;
    push_zeros(out, (map_at - (bytes_at + size)) as usize)?;
    Ok(())
}

// The file of a valid image. Memory is taken once, for the file.
#[tactic(auto, unfolding(crate::specs::Written::file_of))]
fn file_bytes(alloc: Global, i: &Image) -> Result<Bytes, NoMemory>
    requires { IsValidImage i.now }
    ensures { IfOk result (λ file. file ≡ file_of i.now) }
{
    let text = i.text.as_slice();
    let bytes = i.bytes.as_slice();
    let text_size = 4 * text.len() as u64;
    let size = bytes.len() as u64;
    let map = map_size(&i.map);
    let mut out = Vec::with_capacity(alloc, (map_place(text_size, size) + map) as usize)?;
    push_headers(&mut out, i.entry, i.gp, text_size, size, i.bss, map)?;
    push_body(&mut out, text, bytes)?;
    push_map(&mut out, &i.map)?;
    Ok(Bytes::from_vec(out))
}

/// The file of a valid image, in the ECOFF object format: the headers, with the sections `.text`, `.data`, `.bss` and
/// `.ommap`; then the words, the data's bytes and the map, each at the next multiple of 16. A section without bytes has
/// offset 0; the physical addresses and the fields that are not named are 0.
///
/// The file breaks no rule of images, and what is read of it is the image. It takes memory once, for the file, and time
/// linear in it. `NoMemory` says nothing of the image.
pub fn write_image(alloc: Global, i: &Image) -> Result<Bytes, NoMemory>
    requires { IsValidImage i.now }
    ensures file { IfOk result (λ file. file ≡ file_of i.now) }
    ensures read { ReadsBack i.now }
{
    image_fits(i);
    file_bytes(alloc, i)
}
