// Sinks: in memory, of nothing, and over a writer.
use crate::causes::Bad;
use crate::devices::Writer;
use crate::said::Said;
use crate::setup::{fails_of, number_of};
use om_io::{MemSink, NullSink, Sink, StdSink};
use om_rows::bytes_of;
use std::alloc::Global;

// Puts the bytes of `put:HEX` and says whether they were put.
fn put<S: Sink>(alloc: Global, sink: &mut S, said: &mut Said, action: &str) -> Result<(), Bad> {
    let Some(digits) = action.strip_prefix("put:") else {
        return Err(Bad::Text);
    };
    let bytes = bytes_of(alloc, digits)?;
    let done = sink.put(&bytes);
    said.done(done)
}

/// `sink ROOM FAILS ..`: puts, `put:HEX`, and all that was written, `bytes`.
pub fn in_memory(alloc: Global, text: &str) -> Result<String, Bad> {
    let mut words = text.split_ascii_whitespace();
    let room = number_of(words.next())?;
    let mut sink = MemSink::new(alloc, room.min(100_000), fails_of(alloc, words.next())?)?;
    let mut said = Said::new(alloc);
    for action in words {
        if action == "bytes" {
            said.bytes(sink.bytes())?;
        } else {
            put(alloc, &mut sink, &mut said, action)?;
        }
    }
    Ok(said.into_text())
}

/// `no_sink ..`: puts, `put:HEX`, into the sink of nothing.
pub fn of_nothing(alloc: Global, text: &str) -> Result<String, Bad> {
    let mut said = Said::new(alloc);
    for action in text.split_ascii_whitespace() {
        put(alloc, &mut NullSink, &mut said, action)?;
    }
    Ok(said.into_text())
}

/// `writer CHUNK ROOM FAILS ..`: puts, `put:HEX`, into a sink over a writer that takes at most a chunk at a call, and no more than its
/// room in all; how many bytes were flushed, `flushed`, and all that it took, `taken`.
pub fn over_writer(alloc: Global, text: &str) -> Result<String, Bad> {
    let mut words = text.split_ascii_whitespace();
    let chunk = number_of(words.next())?;
    let room = number_of(words.next())?;
    let mut writer = Writer::new(alloc, chunk, room, fails_of(alloc, words.next())?);
    let mut said = Said::new(alloc);
    for action in words {
        match action {
            "flushed" => said.number(writer.flushed() as u64)?,
            "taken" => said.bytes(writer.taken())?,
            _ => put(alloc, &mut StdSink::new(&mut writer), &mut said, action)?,
        }
    }
    Ok(said.into_text())
}
