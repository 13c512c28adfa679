// Rows on numbers in bytes, and on headers and words as bytes.
ghost use Rattle.std.specs.Prelude.{◌≤◌, ◌+◌, IsTrue, length};

use crate::files::{front_number, half, whole};
use om_fields::{
    push_file_header, push_optional_header, push_section_header, push_words, read_words, u16_at,
    u32_at, u64_at,
};
use om_io::NoMemory;
use om_rows::{Bad, bytes_of, text_of};
use std::alloc::Global;

// Whether so many bytes stand at an offset.
fn are_there(bytes: &[u8], at: usize, count: usize) -> bool
    ensures { IsTrue result → at + count ≤ length bytes.now }
{
    at <= bytes.len() && count <= bytes.len() - at
}

// The number of that many bytes at an offset.
fn number_at(bytes: &[u8], at: usize, count: usize) -> Option<u64> {
    if !are_there(bytes, at, count) {
        return None;
    }
    match count {
        2 => Some(u64::from(u16_at(bytes, at))),
        4 => Some(u64::from(u32_at(bytes, at))),
        8 => Some(u64_at(bytes, at)),
        _ => None,
    }
}

// `u16 AT BYTES`, `u32 AT BYTES`, `u64 AT BYTES`: the number at an offset.
fn number_text(alloc: Global, count: usize, input: &str) -> Result<String, Bad> {
    let (at, digits) = front_number(input)?;
    let bytes = bytes_of(alloc, digits)?;
    match number_at(&bytes, at as usize, count) {
        Some(n) => Ok(format!(in alloc; "{n:#x}")?),
        None => Err(Bad::Text),
    }
}

// `words AT COUNT BYTES`: the words at an offset.
fn words_text(alloc: Global, input: &str) -> Result<String, Bad> {
    let (at, rest) = front_number(input)?;
    let (count, digits) = front_number(rest)?;
    let bytes = bytes_of(alloc, digits)?;
    let (at, count) = (at as usize, count as usize);
    if count > 1000 || !are_there(&bytes, at, 4 * count) {
        return Err(Bad::Text);
    }
    let Ok(words) = read_words(alloc, &bytes, at, count) else {
        return Err(Bad::NoMemory);
    };
    let mut text = String::from_str(alloc, "words")?;
    for word in &words {
        let said = format!(in alloc; " {word:#x}")?;
        text.push_str(said.as_str())?;
    }
    Ok(text)
}

fn no_memory(pushed: Result<(), NoMemory>) -> Result<(), Bad> {
    match pushed {
        Ok(()) => Ok(()),
        Err(_error) => Err(Bad::NoMemory),
    }
}

// `file_header SECTIONS SYMBOLS_AT SYMBOLS_SIZE`
fn file_header(out: &mut Vec<u8>, input: &str) -> Result<(), Bad> {
    let (sections, rest) = front_number(input)?;
    let (at, rest) = front_number(rest)?;
    let (size, _) = front_number(rest)?;
    no_memory(push_file_header(out, half(sections)?, at, whole(size)?))
}

// `optional_header ENTRY GP`
fn optional_header(out: &mut Vec<u8>, input: &str) -> Result<(), Bad> {
    let (entry, rest) = front_number(input)?;
    let (gp, _) = front_number(rest)?;
    no_memory(push_optional_header(out, entry, gp))
}

// `section_header ADDR SIZE BYTES_AT RELOCS_AT RELOCS`, of the name `.text`
fn section_header(out: &mut Vec<u8>, input: &str) -> Result<(), Bad> {
    let (addr, rest) = front_number(input)?;
    let (size, rest) = front_number(rest)?;
    let (bytes_at, rest) = front_number(rest)?;
    let (relocs_at, rest) = front_number(rest)?;
    let relocs = half(front_number(rest)?.0)?;
    no_memory(push_section_header(out, b".text\0\0\0", addr, size, bytes_at, relocs_at, relocs))
}

// `push_words WORD WORD`
fn two_words(out: &mut Vec<u8>, input: &str) -> Result<(), Bad> {
    let (first, rest) = front_number(input)?;
    let (second, _) = front_number(rest)?;
    no_memory(push_words(out, &[whole(first)?, whole(second)?]))
}

// What is appended.
fn pushed(alloc: Global, kind: &str, input: &str) -> Result<String, Bad> {
    let mut out = Vec::new(alloc);
    match kind {
        "file_header" => file_header(&mut out, input)?,
        "optional_header" => optional_header(&mut out, input)?,
        "section_header" => section_header(&mut out, input)?,
        "push_words" => two_words(&mut out, input)?,
        _ => return Err(Bad::Text),
    }
    Ok(text_of(alloc, &out)?)
}

/// The answer to a row on bytes.
pub fn answer(alloc: Global, kind: &str, input: &str) -> Result<String, Bad> {
    match kind {
        "u16" => number_text(alloc, 2, input),
        "u32" => number_text(alloc, 4, input),
        "u64" => number_text(alloc, 8, input),
        "words" => words_text(alloc, input),
        _ => pushed(alloc, kind, input),
    }
}
