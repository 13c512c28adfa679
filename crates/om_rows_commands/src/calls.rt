// Rows of `om`: calls one after another over one store, and what they answer.
use crate::counted::Counted;
use crate::outside::{Outside, Shown, add_file};
use crate::words::words_of;
use om_command::om;
use om_io::{DirStore, MemSink, MemSource, MemStore, NoMemory};
use om_rows::{Bad, text_of};
use std::alloc::{AllocError, Global};
use std::rt::Files;

// Room for what a call puts on `err`.
const ERR_ROOM: u64 = 256;

type RowStore = Counted<MemStore>;

// The store of a row, with copies of its files.
fn store_of(alloc: Global, outside: &Outside) -> Result<RowStore, Bad> {
    let mut files = Vec::new(alloc);
    for (name, bytes) in &outside.files {
        let copy = Vec::from_slice(alloc, bytes.as_slice())?;
        add_file(alloc, &mut files, name.as_str(), copy)?;
    }
    let fails = vec![in alloc; outside.fails.store; 1]?;
    match MemStore::new(alloc, files, outside.room, fails) {
        Ok(store) => Ok(Counted::new(store)),
        Err(NoMemory) => Err(Bad::NoMemory),
    }
}

fn sink(alloc: Global, room: u64, fails: u64) -> Result<MemSink, Bad> {
    let fails = vec![in alloc; fails; 1]?;
    match MemSink::new(alloc, room, fails) {
        Ok(sink) => Ok(sink),
        Err(NoMemory) => Err(Bad::NoMemory),
    }
}

// Bytes as text where they are that.
fn quoted(alloc: Global, bytes: &[u8]) -> Result<String, AllocError> {
    match str::from_utf8(bytes) {
        Ok(text) => format!(in alloc; "{text:?}"),
        Err(_) => text_of(alloc, bytes),
    }
}

// The last line of a text.
fn last_line(bytes: &[u8]) -> &[u8] {
    let mut start = 0;
    for (place, byte) in bytes.iter().enumerate() {
        if *byte == b'\n' && place < bytes.len() - 1 {
            start = place + 1;
        }
    }
    bytes.get(start..).unwrap_or(&[])
}

// What is on `out`, as a row shows it.
fn shown(alloc: Global, shown: Shown, bytes: &[u8]) -> Result<String, AllocError> {
    match shown {
        Shown::All => quoted(alloc, bytes),
        Shown::LastLine => quoted(alloc, last_line(bytes)),
        Shown::Count => format!(in alloc; "{} bytes", bytes.len()),
    }
}

// One call: its status, what is on `out`, and what is on `err`.
fn called(
    alloc: Global,
    outside: &Outside,
    store: &mut RowStore,
    line: &str,
) -> Result<String, Bad> {
    let words = words_of(alloc, line)?;
    let bytes = Vec::from_slice(alloc, outside.input.as_bytes())?;
    let fails = vec![in alloc; outside.fails.input; 1]?;
    let mut input = MemSource::new(bytes, fails);
    let mut out = sink(alloc, outside.space, outside.fails.out)?;
    let mut err = sink(alloc, ERR_ROOM, outside.fails.err)?;
    let status = om(alloc, &words, store, &mut input, &mut out, &mut err);
    let written = shown(alloc, outside.shown, out.bytes())?;
    let told = quoted(alloc, err.bytes())?;
    Ok(format!(in alloc; "{status} {written} {told}")?)
}

// A file that was saved, and the part of it that a row asks for.
fn saved(
    alloc: Global,
    name: &str,
    bytes: &[u8],
    part: Option<(u64, u64)>,
) -> Result<String, AllocError> {
    let Some((from, to)) = part else {
        return format!(in alloc; "; saved {name}");
    };
    let within = bytes.get(from as usize..to as usize).unwrap_or(&[]);
    let text = text_of(alloc, within)?;
    format!(in alloc; "; saved {name} {} {text}", bytes.len())
}

// The files that a call may have saved: those whose names are words of the lines, those of the row, and `p`.
fn watched<'a>(
    alloc: Global,
    outside: &'a Outside,
    words: &'a str,
) -> Result<Vec<&'a str>, AllocError> {
    let mut names = Vec::new(alloc);
    for word in words.split_ascii_whitespace() {
        names.push(word)?;
    }
    for (name, _) in &outside.files {
        names.push(name.as_str())?;
    }
    names.push("p")?;
    Ok(names)
}

// Those of them that are not as they were.
fn changes(
    alloc: Global,
    outside: &Outside,
    store: &RowStore,
    lines: &str,
) -> Result<String, AllocError> {
    let mut text = String::new(alloc);
    let words = lines.replace(alloc, ";", " ")?;
    let names = watched(alloc, outside, words.as_str())?;
    let mut told = Vec::new(alloc);
    for name in &names {
        if told.contains(name) {
            continue;
        }
        told.push(*name)?;
        let now = store.inner.file(name);
        if now != outside.file(name) {
            text.push_str(saved(alloc, name, now.unwrap_or(&[]), outside.part)?.as_str())?;
        }
    }
    Ok(text)
}

// What the calls of a row answer, parted by `; `, which files were saved, and how often the store was asked.
fn answers(alloc: Global, outside: &Outside, lines: &str) -> Result<String, Bad> {
    let mut store = store_of(alloc, outside)?;
    let mut text = String::new(alloc);
    for line in lines.split(';') {
        if !text.is_empty() {
            text.push_str("; ")?;
        }
        text.push_str(called(alloc, outside, &mut store, line)?.as_str())?;
    }
    text.push_str(changes(alloc, outside, &store, lines)?.as_str())?;
    if outside.counts {
        let (loads, saves) = (store.loads, store.saves);
        let counts = format!(in alloc; "; {loads} loads, {saves} saves")?;
        text.push_str(counts.as_str())?;
    }
    Ok(text)
}

/// The answer to a row: `WORDS; WORDS .. | PART | PART ..`, with the parts that `Outside::take` reads.
///
/// It has a status, what is on `out` and what is on `err` for each call, and then the name of each file that was saved.
pub fn answer_to<R: Files + Drop>(
    alloc: Global,
    folder: &mut DirStore<R>,
    input: &str,
) -> Result<String, Bad> {
    let mut outside = Outside::new(alloc);
    let (lines, parts) = input.split_once('|').unwrap_or((input, ""));
    for part in parts.split('|') {
        let part = part.trim();
        if !part.is_empty() {
            outside.take(alloc, folder, part)?;
        }
    }
    answers(alloc, &outside, lines)
}
