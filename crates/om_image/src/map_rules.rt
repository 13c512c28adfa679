// Whether bytes are a map: rule 8 of images.
ghost use Rattle.std.specs.Prelude.{◌≡◌, ◌≤◌, ◌<◌, ◌+◌, ◌*◌, ◌^◌, true, ℕ, length, nat_le, ◌==◌};
ghost use Rattle.om_fields.specs.Places.{number_at};
ghost use Rattle.om_image.specs.MapFields.{objects_in, tables_in, slots_in, regions_in, words_in, slots_at, slots_of, regions_at as regions_start, words_at as words_start, tables_at as tables_start, map_end as end_of_map, sum_below, is_region as region_fits, is_slot as slot_fits, is_position as position_fits, position_of as position_in, kept_of, is_fine_slot as fine_slot, is_fine_region as fine_region, is_fine_word as fine_word, is_fine as fine, extent_of, are_fine as all_fine, object_words_below, is_marked as marked, holds_tables as tables_held, is_filled as filled, has_fine_parts as parts_fine, is_map as map_fits};
ghost use Rattle.om_image.specs.Shapes.{IsShape};

use crate::part::Part;
use crate::shape::Shape;
use om_fields::{u32_at, u64_at};

// Whether the bytes begin with the mark, and have room for the counts.
fn is_marked(b: &[u8]) -> bool
    ensures gives { result ≡ marked b.now }
    ensures long { result ≡ true → 24 ≤ length b.now }
{
    b.len() >= 24 && b"OMMAP1\0\0".as_slice() == &b[..8]
}

// Whether the tables lie within the bytes.
fn holds_tables(b: &[u8]) -> bool
    requires { 24 ≤ length b.now }
    ensures gives { result ≡ tables_held b.now }
    ensures inside { result ≡ true → slots_at b.now ≤ length b.now }
{
    let objects = u32_at(b, 8) as u64;
    let tables = u32_at(b, 12) as u64;
    24 + 8 * objects + 16 * tables <= b.len() as u64
}

// How many slots `n` tables have that stand from the place `at` on.
fn slot_total(b: &[u8], at: usize, n: usize) -> usize
    requires few { n < 2 ^ 32 }
    requires inside { at + 16 * n ≤ length b.now }
    ensures { result ≡ sum_below (λ k. number_at b.now (at + 16 * k + 8) 4) n }
{
    let mut total = 0;
    for k in 0..n {
        total += u32_at(b, at + 16 * k + 8) as usize;
    }
    total
}

/// The counts of a map's bytes.
pub fn shape_of(b: &[u8]) -> Shape
    requires long { 24 ≤ length b.now }
    requires inside { slots_at b.now ≤ length b.now }
    ensures { IsShape result b.now }
{
    let objects = u32_at(b, 8) as usize;
    let tables = u32_at(b, 12) as usize;
    Shape {
        objects,
        tables,
        slots: slot_total(b, 24 + 8 * objects, tables),
        regions: u32_at(b, 16) as usize,
        words: u32_at(b, 20) as usize,
    }
}

// Where the parts end.
fn map_end(shape: &Shape) -> u128
    ensures { result ≡ 24 + 8 * shape.now.objects + 16 * shape.now.tables + 24 * shape.now.slots + 32 * shape.now.regions + 8 * shape.now.words }
{
    24 + 8 * shape.objects as u128
        + 16 * shape.tables as u128
        + 24 * shape.slots as u128
        + 32 * shape.regions as u128
        + 8 * shape.words as u128
}

// Whether the parts fill the bytes exactly.
fn is_filled(b: &[u8], shape: &Shape) -> bool
    requires { IsShape shape.now b.now }
    ensures gives { result ≡ filled b.now }
    ensures ends { result ≡ true → end_of_map b.now ≡ length b.now }
{
    map_end(shape) == b.len() as u128
}

// How many words the first `n` objects have.
fn object_words(b: &[u8], n: usize) -> usize
    requires few { n < 2 ^ 32 }
    requires inside { 24 + 8 * n ≤ length b.now }
    ensures { result ≡ object_words_below b.now n }
{
    let mut total = 0;
    for k in 0..n {
        total += u32_at(b, 24 + 8 * k) as usize;
    }
    total
}

// Whether a region's number is one of its kind.
fn is_region(kind: u32, number: u32) -> bool
    ensures { result ≡ region_fits kind number }
{
    if kind == 1 {
        number < 256
    } else {
        kind == 2 && number == 0
    }
}

// Whether a slot's fields are those of its kind.
fn is_slot(kind: u32, name: u32, number: u32, off: u64) -> bool
    ensures { result ≡ slot_fits kind name number off }
{
    if kind == 0 {
        name == 0 && number == 0
    } else if kind == 3 {
        number == 0 && off < 0x1_0000_0000
    } else {
        is_region(kind, number)
    }
}

// The position in a word's last field.
pub fn position_of(n: u32) -> u32
    ensures { result ≡ position_in n }
{
    n % 0x8000_0000
}

// Whether a word's last field says that it is kept.
pub fn is_kept(n: u32) -> bool
    ensures { result ≡ kept_of n }
{
    n / 0x8000_0000 == 1
}

// Whether a position is there in an image of so many words.
fn is_position(count: u64, kept: bool, position: u32) -> bool
    requires { count < 2 ^ 63 }
    ensures { result ≡ position_fits count kept position }
{
    let end = if kept { count } else { count + 1 };
    u64::from(position) < end
}

fn is_fine_slot(b: &[u8], at: usize) -> bool
    requires { at + 24 ≤ length b.now }
    ensures { result ≡ fine_slot b.now at }
{
    u32_at(b, at + 12) == 0
        && is_slot(
            u32_at(b, at),
            u32_at(b, at + 4),
            u32_at(b, at + 8),
            u64_at(b, at + 16),
        )
}

fn is_fine_region(b: &[u8], at: usize) -> bool
    requires { at + 32 ≤ length b.now }
    ensures { result ≡ fine_region b.now at }
{
    u32_at(b, at + 12) == 0 && is_region(u32_at(b, at), u32_at(b, at + 8))
}

fn is_fine_word(b: &[u8], at: usize, count: u64) -> bool
    requires inside { at + 8 ≤ length b.now }
    requires count { count < 2 ^ 63 }
    ensures { result ≡ fine_word b.now at count }
{
    let bits = u32_at(b, at + 4);
    is_position(count, is_kept(bits), position_of(bits))
}

// Whether the `k`-th item of a part that begins at `at` is as it must be.
fn is_fine(b: &[u8], part: Part, at: usize, bound: u64, k: usize) -> bool
    requires inside { at + extent_of part (k + 1) ≤ length b.now }
    requires bound { bound < 2 ^ 63 }
    ensures { result ≡ fine part b.now at bound k }
{
    match part {
        Part::Object => u64::from(u32_at(b, at + 8 * k + 4)) < bound,
        Part::Table => u32_at(b, at + 16 * k + 12) == 0,
        Part::Slot => is_fine_slot(b, at + 24 * k),
        Part::Extent => is_fine_region(b, at + 32 * k),
        Part::Word => is_fine_word(b, at + 8 * k, bound),
    }
}

// Whether the first `n` items of a part are as they must be.
#[tactic(auto, using(crate::proofs::Below::extent_grows, crate::proofs::Below::true_further))]
fn are_fine(b: &[u8], part: Part, at: usize, bound: u64, n: usize) -> bool
    requires inside { at + extent_of part n ≤ length b.now }
    requires bound { bound < 2 ^ 63 }
    ensures { result ≡ all_fine part b.now at bound n }
{
    for k in 0..n {
        if !is_fine(b, part, at, bound, k) {
            return false;
        }
    }
    true
}

// Whether the items of all parts are as they must be in a map of an image with so many words.
fn has_fine_parts(b: &[u8], s: &Shape, count: u64) -> bool
    requires shape { IsShape s.now b.now }
    requires ends { end_of_map b.now ≡ length b.now }
    requires count { count < 2 ^ 63 }
    ensures { result ≡ parts_fine count b.now }
{
    let tables_at = 24 + 8 * s.objects;
    let slots_at = tables_at + 16 * s.tables;
    let regions_at = slots_at + 24 * s.slots;
    let words_at = regions_at + 32 * s.regions;
    are_fine(b, Part::Object, 24, s.tables as u64, s.objects)
        && are_fine(b, Part::Table, tables_at, 0, s.tables)
        && are_fine(b, Part::Slot, slots_at, 0, s.slots)
        && are_fine(b, Part::Extent, regions_at, 0, s.regions)
        && are_fine(b, Part::Word, words_at, count, s.words)
}

/// Whether the bytes are a map of an image with so many words. It takes no memory, whatever the counts say.
pub fn is_map(b: &[u8], count: u64) -> bool
    requires { count < 2 ^ 63 }
    ensures { result ≡ map_fits count b.now }
{
    if !is_marked(b) {
        return false;
    }
    if !holds_tables(b) {
        return false;
    }
    let shape = shape_of(b);
    if !is_filled(b, &shape) {
        return false;
    }
    if object_words(b, shape.objects) != shape.words {
        return false;
    }
    has_fine_parts(b, &shape, count)
}
