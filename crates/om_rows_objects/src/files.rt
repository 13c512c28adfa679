// The files and numbers of rows.
use om_rows::{Bad, number, put_pieces, word};
use std::alloc::Global;
use std::fs;

// The bytes of a file that lies where the program runs.
fn load(rt: &HostRuntime, name: &str) -> Result<Vec<u8>, Bad> {
    match fs::read(rt, name) {
        Ok(bytes) => Ok(bytes),
        Err(_) => Err(Bad::Text),
    }
}

/// The file of `NAME PIECES`: that file, or none where the name is `-`, with the pieces put over it.
pub fn file_of(rt: &HostRuntime, alloc: Global, text: &str) -> Result<Vec<u8>, Bad> {
    let (name, pieces) = word(text);
    let mut file = if name == "-" {
        Vec::new(alloc)
    } else {
        load(rt, name)?
    };
    put_pieces(alloc, &mut file, pieces)?;
    Ok(file)
}

/// A number in front of a text, and what stands behind the blank after it.
pub fn front_number(text: &str) -> Result<(u64, &str), Bad> {
    let (first, rest) = word(text);
    match number(first) {
        Some(n) => Ok((n, rest)),
        None => Err(Bad::Text),
    }
}

/// A number below 256.
pub fn small(n: u64) -> Result<u8, Bad> {
    match u8::try_from(n) {
        Ok(n) => Ok(n),
        Err(_error) => Err(Bad::Text),
    }
}

/// A number below 2^16.
pub fn half(n: u64) -> Result<u16, Bad> {
    match u16::try_from(n) {
        Ok(n) => Ok(n),
        Err(_error) => Err(Bad::Text),
    }
}

/// A number below 2^32.
pub fn whole(n: u64) -> Result<u32, Bad> {
    match u32::try_from(n) {
        Ok(n) => Ok(n),
        Err(_error) => Err(Bad::Text),
    }
}
