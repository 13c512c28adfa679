// Runs of the numeric machine.
use crate::bench::Bench;
use crate::causes::Bad;
use crate::said::Said;
use crate::setup::{fails_of, number_of, text_of};
use crate::valid::image_of;
use om_io::{MemSink, MemSource};
use om_machine::Machine;
use om_rows::bytes_of;
use std::alloc::Global;

// Words of 8 hexadecimal digits with commas between them.
fn words_of(alloc: Global, text: &str) -> Result<Vec<u32>, Bad> {
    let mut words = Vec::new(alloc);
    for digits in text.split(',') {
        words.push(u32::from_str_radix(digits, 16).map_err(|_| Bad::Text)?)?;
    }
    Ok(words)
}

// The machine of these words and bytes of data.
fn machine_of(alloc: Global, text: &str, bytes: &str) -> Result<Machine, Bad> {
    let image = image_of(alloc, words_of(alloc, text)?, bytes_of(alloc, bytes)?);
    Ok(Machine::load(alloc, &image.ok_or(Bad::Text)?)?)
}

// The source of these bytes, of which these reads fail.
fn source_of(alloc: Global, bytes: &str, fails: Option<&str>) -> Result<MemSource, Bad> {
    let bytes = bytes_of(alloc, bytes)?;
    Ok(MemSource::new(bytes, fails_of(alloc, fails)?))
}

// The sink of this room, of which these puts fail.
fn sink_of(alloc: Global, room: u64, fails: Option<&str>) -> Result<MemSink, Bad> {
    Ok(MemSink::new(alloc, room.min(100_000), fails_of(alloc, fails)?)?)
}

// The machine of `TEXT DATA INPUT FAILS ROOM FAILS`.
fn bench_of(alloc: Global, front: &str) -> Result<Bench, Bad> {
    let mut words = front.split_ascii_whitespace();
    let text = text_of(words.next())?;
    let machine = machine_of(alloc, text, text_of(words.next())?)?;
    let bytes = text_of(words.next())?;
    let input = source_of(alloc, bytes, words.next())?;
    let room = number_of(words.next())?;
    Ok(Bench {
        machine,
        input,
        out: sink_of(alloc, room, words.next())?,
        err: sink_of(alloc, room, Some("-"))?,
    })
}
/// `run TEXT DATA INPUT FAILS ROOM FAILS : ..`: the machine of these words and data, whose input fails at these reads and whose
/// output has this room and fails at these puts, and what is done with it and asked of it.
pub fn answer(alloc: Global, text: &str) -> Result<String, Bad> {
    let (front, actions) = text.split_once(" : ").ok_or(Bad::Text)?;
    let mut bench = bench_of(alloc, front)?;
    let mut said = Said::new(alloc);
    for action in actions.split_ascii_whitespace() {
        bench.act(alloc, &mut said, action)?;
    }
    Ok(said.into_text())
}
