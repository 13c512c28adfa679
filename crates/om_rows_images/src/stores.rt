// Loads and saves, of a store in memory.
use crate::causes::Bad;
use crate::said::Said;
use crate::setup::{fails_of, number_of, text_of};
use om_io::{Bytes, LoadErr, MemStore, Store};
use om_rows::{bytes_of, number};
use std::alloc::Global;

// Says what a load gave.
fn say_load(said: &mut Said, load: Result<Bytes, LoadErr>) -> Result<(), Bad> {
    match load {
        Ok(bytes) => said.bytes(bytes.as_slice()),
        Err(LoadErr::Failed) => said.word("failed"),
        Err(LoadErr::Missing) => said.word("missing"),
        Err(LoadErr::TooLong) => said.word("too_long"),
        Err(LoadErr::NoMemory) => Err(Bad::NoMemory),
    }
}

/// Does `load:NAME:MOST` or `save:NAME:HEX`, and says what it gave.
pub fn call<S: Store>(
    alloc: Global,
    store: &mut S,
    said: &mut Said,
    action: &str,
) -> Result<(), Bad> {
    let (what, rest) = action.split_once(':').ok_or(Bad::Text)?;
    let (name, more) = rest.split_once(':').ok_or(Bad::Text)?;
    match what {
        "load" => {
            let load = store.load(alloc, name, number(more).ok_or(Bad::Text)?);
            say_load(said, load)
        }
        "save" => {
            let done = store.save(name, &bytes_of(alloc, more)?);
            said.done(done)
        }
        _ => Err(Bad::Text),
    }
}

// The files of `NAME:HEX,NAME:HEX`.
fn files_of(alloc: Global, text: &str) -> Result<Vec<(String, Bytes)>, Bad> {
    let mut files = Vec::new(alloc);
    for file in text.split(',') {
        let (name, digits) = file.split_once(':').ok_or(Bad::Text)?;
        let bytes = Bytes::from_vec(bytes_of(alloc, digits)?);
        files.push((String::from_str(alloc, name)?, bytes))?;
    }
    Ok(files)
}

// Says what a file holds.
fn say_file(said: &mut Said, file: Option<&[u8]>) -> Result<(), Bad> {
    match file {
        Some(bytes) => said.bytes(bytes),
        None => said.word("none"),
    }
}

/// `store FILES ROOM FAILS ..`: loads, `load:NAME:MOST`, saves, `save:NAME:HEX`, and what a file holds, `file:NAME`, of these files
/// with room for so many bytes of saves.
pub fn in_memory(alloc: Global, text: &str) -> Result<String, Bad> {
    let mut words = text.split_ascii_whitespace();
    let files = files_of(alloc, text_of(words.next())?)?;
    let room = number_of(words.next())?.min(100_000);
    let mut store = MemStore::new(alloc, files, room, fails_of(alloc, words.next())?)?;
    let mut said = Said::new(alloc);
    for action in words {
        match action.strip_prefix("file:") {
            Some(name) => say_file(&mut said, store.file(name))?,
            None => call(alloc, &mut store, &mut said, action)?,
        }
    }
    Ok(said.into_text())
}
