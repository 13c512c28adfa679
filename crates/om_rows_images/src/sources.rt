// Sources: in memory, of nothing, and over a reader.
use crate::causes::Bad;
use crate::devices::Reader;
use crate::said::Said;
use crate::setup::{buffer_of, fails_of, number_of, text_of};
use om_io::{MemSource, NullSource, Source, StdSource};
use om_rows::bytes_of;
use std::alloc::Global;

/// `source BYTES FAILS SIZE ..`: reads into a buffer of this size, `read`, and what is left, `left`.
pub fn in_memory(alloc: Global, text: &str) -> Result<String, Bad> {
    let mut words = text.split_ascii_whitespace();
    let bytes = bytes_of(alloc, text_of(words.next())?)?;
    let mut source = MemSource::new(bytes, fails_of(alloc, words.next())?);
    let mut buffer = buffer_of(alloc, number_of(words.next())?)?;
    let mut said = Said::new(alloc);
    for action in words {
        match action {
            "read" => {
                let count = source.read(&mut buffer);
                said.read(count, &buffer)?;
            }
            "left" => said.bytes(source.left())?,
            _ => return Err(Bad::Text),
        }
    }
    Ok(said.into_text())
}

// As many reads as there are words.
fn reads<S: Source>(alloc: Global, source: &mut S, size: u64, reads: usize) -> Result<String, Bad> {
    let mut buffer = buffer_of(alloc, size)?;
    let mut said = Said::new(alloc);
    for _ in 0..reads {
        let count = source.read(&mut buffer);
        said.read(count, &buffer)?;
    }
    Ok(said.into_text())
}

/// `no_source SIZE READS`: so many reads of the source of nothing.
pub fn of_nothing(alloc: Global, text: &str) -> Result<String, Bad> {
    let mut words = text.split_ascii_whitespace();
    let size = number_of(words.next())?;
    let count = number_of(words.next())?;
    reads(alloc, &mut NullSource, size, count.min(100) as usize)
}

/// `reader BYTES CHUNK FAILS SIZE READS`: so many reads of the source over a reader that gives at most a chunk at a call.
pub fn over_reader(alloc: Global, text: &str) -> Result<String, Bad> {
    let mut words = text.split_ascii_whitespace();
    let bytes = bytes_of(alloc, text_of(words.next())?)?;
    let chunk = number_of(words.next())?;
    let reader = Reader::new(bytes, chunk, fails_of(alloc, words.next())?);
    let size = number_of(words.next())?;
    let count = number_of(words.next())?;
    reads(
        alloc,
        &mut StdSource::new(reader),
        size,
        count.min(100) as usize,
    )
}
