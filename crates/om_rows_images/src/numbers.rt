// Numbers as text, and the small types of bytes and items.
use crate::causes::Bad;
use crate::said::Said;
use om_io::{Listed, MemSink, Name, put_dec, put_hex};
use om_rows::{bytes_of, number, text_of, word};
use std::alloc::Global;
use std::str;

/// More bytes than a number's text has.
const ROOM: u64 = 64;

fn text_in(alloc: Global, sink: &MemSink) -> Result<String, Bad> {
    let text = str::from_utf8(sink.bytes()).map_err(|_| Bad::Text)?;
    Ok(String::from_str(alloc, text)?)
}

/// `dec N`: the number in decimal digits.
pub fn decimal(alloc: Global, text: &str) -> Result<String, Bad> {
    let Ok(n) = text.parse::<u128>() else {
        return Err(Bad::Text);
    };
    let mut sink = MemSink::new(alloc, ROOM, Vec::new(alloc))?;
    let _ = put_dec(&mut sink, n);
    text_in(alloc, &sink)
}

/// `hex N DIGITS`: the lowest hexadecimal digits of the number.
pub fn hexadecimal(alloc: Global, text: &str) -> Result<String, Bad> {
    let (n, digits) = word(text);
    let n = number(n).ok_or(Bad::Text)?;
    let digits = digits.parse::<u8>().unwrap_or(0);
    if digits == 0 || digits > 16 {
        return Err(Bad::Text);
    }
    let mut sink = MemSink::new(alloc, ROOM, Vec::new(alloc))?;
    let _ = put_hex(&mut sink, n, digits);
    text_in(alloc, &sink)
}

/// `name HEX`: the bytes of the name made of these.
pub fn name_bytes(alloc: Global, text: &str) -> Result<String, Bad> {
    let name = Name::from_vec(bytes_of(alloc, text)?);
    Ok(text_of(alloc, name.as_slice())?)
}

/// The numbers of a text, with blanks between them.
pub fn numbers_of(alloc: Global, text: &str) -> Result<Vec<u64>, Bad> {
    let mut numbers = Vec::new(alloc);
    for digits in text.split_ascii_whitespace() {
        numbers.push(number(digits).ok_or(Bad::Text)?)?;
    }
    Ok(numbers)
}

/// `listed N ..`: the items of the list made of these.
pub fn items(alloc: Global, text: &str) -> Result<String, Bad> {
    let items = Listed::from_vec(numbers_of(alloc, text)?);
    let mut said = Said::new(alloc);
    for n in items.as_slice() {
        said.number(*n)?;
    }
    Ok(said.into_text())
}
