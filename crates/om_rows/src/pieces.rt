// Bytes in hexadecimal, and files as pieces at their offsets.
use hex::FromHexError;
use std::alloc::{AllocError, AllocFailed, Global};

/// The most bytes of a file that pieces make.
const MOST_BYTES: usize = 300_000_000;

/// Why a text says no bytes.
#[derive(Debug, Drop)]
pub enum Bad {
    /// The text is not of the stated form.
    Text,
    /// Memory ran out.
    NoMemory,
}

impl From<AllocError> for Bad {
    fn from(_: AllocError) -> Bad {
        Bad::NoMemory
    }
}

impl<T: Drop> From<AllocFailed<T>> for Bad {
    fn from(_: AllocFailed<T>) -> Bad {
        Bad::NoMemory
    }
}

impl From<FromHexError> for Bad {
    fn from(e: FromHexError) -> Bad {
        match e {
            FromHexError::OutOfMemory => Bad::NoMemory,
            _ => Bad::Text,
        }
    }
}

/// The bytes that pairs of hexadecimal digits say. `-` says none.
pub fn bytes_of(alloc: Global, text: &str) -> Result<Vec<u8>, Bad> {
    let digits = if text == "-" { "" } else { text };
    Ok(hex::decode(alloc, digits)?)
}

/// The pairs of hexadecimal digits of bytes, `-` for none.
pub fn text_of(alloc: Global, bytes: &[u8]) -> Result<String, AllocError> {
    if bytes.is_empty() {
        String::from_str(alloc, "-")
    } else {
        hex::encode(alloc, bytes)
    }
}

// Puts bytes at a place, so many times one after another. Where they pass the end, zeros make the file long enough first.
fn put_bytes(file: &mut Vec<u8>, at: usize, bytes: &[u8], times: usize) -> Result<(), AllocError> {
    let end = at.saturating_add(bytes.len().saturating_mul(times));
    if end > file.len() && end <= MOST_BYTES {
        file.resize(end, 0)?;
    }
    let mut place = at;
    for _ in 0..times {
        for byte in bytes {
            if let Some(old) = file.get_mut(place) {
                *old = *byte;
            }
            place = place.saturating_add(1);
        }
    }
    Ok(())
}

fn count_of(text: &str) -> Result<usize, Bad> {
    match text.parse::<usize>().ok().filter(|n| *n <= MOST_BYTES) {
        Some(n) => Ok(n),
        None => Err(Bad::Text),
    }
}

// Puts a piece, `AT:HEX` or `AT:HEX*TIMES`, over what a file has, or makes it as long as `AT:` says.
fn put_piece(alloc: Global, file: &mut Vec<u8>, piece: &str) -> Result<(), Bad> {
    let Some((at, text)) = piece.split_once(':') else {
        return Err(Bad::Text);
    };
    let at = count_of(at)?;
    if text.is_empty() {
        file.resize(at, 0)?;
        return Ok(());
    }
    let (digits, times) = text.split_once('*').unwrap_or((text, "1"));
    let bytes = bytes_of(alloc, digits)?;
    put_bytes(file, at, &bytes, count_of(times)?)?;
    Ok(())
}

/// Puts pieces over what a file has, one after another: `AT:HEX` puts bytes at an offset, over what is there and with zeros
/// before it; `AT:HEX*TIMES` puts them there so many times one after another; `AT:` cuts the file at an offset, or fills it up
/// to there with zeros. Where a piece cannot be read, those before it were put.
pub fn put_pieces(alloc: Global, file: &mut Vec<u8>, pieces: &str) -> Result<(), Bad> {
    for piece in pieces.split_ascii_whitespace() {
        put_piece(alloc, file, piece)?;
    }
    Ok(())
}

/// The bytes that pieces make of an empty file (see `put_pieces`).
pub fn file_of(alloc: Global, pieces: &str) -> Result<Vec<u8>, Bad> {
    let mut file = Vec::new(alloc);
    put_pieces(alloc, &mut file, pieces)?;
    Ok(file)
}
