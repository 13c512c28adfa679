// The words of a row that say what a call is made with.
use crate::causes::Bad;
use om_rows::number;
use std::alloc::Global;

/// A number that a word says.
pub fn number_of(word: Option<&str>) -> Result<u64, Bad> {
    match word {
        Some(word) => number(word).ok_or(Bad::Text),
        None => Err(Bad::Text),
    }
}

/// A word that is there.
pub fn text_of<'a>(word: Option<&'a str>) -> Result<&'a str, Bad> {
    word.ok_or(Bad::Text)
}

/// The numbers, from 0, of the calls that are to fail, with commas between them; `-` for none.
pub fn fails_of(alloc: Global, word: Option<&str>) -> Result<Vec<u64>, Bad> {
    let mut fails = Vec::new(alloc);
    let word = text_of(word)?;
    if word != "-" {
        for call in word.split(',') {
            fails.push(number(call).ok_or(Bad::Text)?)?;
        }
    }
    Ok(fails)
}

/// A buffer of so many zeros.
pub fn buffer_of(alloc: Global, size: u64) -> Result<Vec<u8>, Bad> {
    if size > 4096 {
        return Err(Bad::Text);
    }
    let mut buffer = Vec::new(alloc);
    buffer.resize(size as usize, 0)?;
    Ok(buffer)
}
