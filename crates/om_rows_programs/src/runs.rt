// Rows of runs of the symbolic machine.
use crate::programs::program_of;
use om_io::{MemSink, MemSource, NullSink, NullSource};
use om_rows::{Bad, bytes_of, number, text_of, word};
use om_symrun::{SymRun, SymStep};
use om_value::Place;
use std::alloc::{AllocError, Global};

/// The most bytes that a run puts on descriptor 1.
const ROOM: u64 = 9000;

/// `run STEPS PROGRAM => ANSWER`: with no input, and outputs that take everything
pub fn run(alloc: Global, input: &str) -> Result<String, Bad> {
    let (steps, said) = word(input);
    let steps = number(steps).ok_or(Bad::Text)?;
    let program = program_of(alloc, said)?;
    let Ok(mut run) = SymRun::new(alloc, &program) else {
        return Err(Bad::NoMemory);
    };
    let answer = run.run(steps, &mut NullSource, &mut NullSink, &mut NullSink);
    Ok(format!(in alloc; "{answer:?}")?)
}

/// An input and an output of which a call may fail, and how many steps a run takes.
#[derive(Drop)]
struct Devices {
    steps: u64,
    input: MemSource,
    out: MemSink,
}

/// The calls that fail: the one of a number, counted from 0, or none for `-`.
fn failing(alloc: Global, said: &str) -> Result<Vec<u64>, Bad> {
    let mut calls = Vec::new(alloc);
    if said != "-" {
        calls.push(number(said).ok_or(Bad::Text)?)?;
    }
    Ok(calls)
}

/// `STEPS BYTES READ PUT`, and what stands behind it
fn outside(alloc: Global, said: &str) -> Result<(Devices, &str), Bad> {
    let (steps, rest) = word(said);
    let (bytes, rest) = word(rest);
    let (read, rest) = word(rest);
    let (put, rest) = word(rest);
    let Ok(out) = MemSink::new(alloc, ROOM, failing(alloc, put)?) else {
        return Err(Bad::NoMemory);
    };
    let outside = Devices {
        steps: number(steps).ok_or(Bad::Text)?,
        input: MemSource::new(bytes_of(alloc, bytes)?, failing(alloc, read)?),
        out,
    };
    Ok((outside, rest))
}

/// The bytes up to the last that is not zero.
fn without_zeros(bytes: &[u8]) -> &[u8] {
    let mut end = 0;
    for (k, byte) in bytes.iter().enumerate() {
        if *byte != 0 {
            end = k + 1;
        }
    }
    bytes.get(..end).unwrap_or(bytes)
}

fn put_text(alloc: Global, out: &MemSink) -> Result<String, AllocError> {
    let bytes = out.bytes();
    let front = text_of(alloc, without_zeros(bytes))?;
    format!(in alloc; "{} bytes {front}", bytes.len())
}

fn run_on(run: &mut SymRun<'_>, outside: &mut Devices) -> SymStep {
    run.run(
        outside.steps,
        &mut outside.input,
        &mut outside.out,
        &mut NullSink,
    )
}

/// `streams STEPS BYTES READ PUT PROGRAM => ANSWER at PLACE, N bytes HEX; ANSWER, N bytes HEX`: what a run over these bytes
/// answers, of which the read and the put of these numbers fail, where it stands, and what it has put on descriptor 1 (HEX
/// leaves out the zeros at the end); then what it answers when it is run on, and all that it has put
pub fn streams(alloc: Global, input: &str) -> Result<String, Bad> {
    let (mut outside, said) = outside(alloc, input)?;
    let program = program_of(alloc, said)?;
    let Ok(mut run) = SymRun::new(alloc, &program) else {
        return Err(Bad::NoMemory);
    };
    let first = run_on(&mut run, &mut outside);
    let Place { obj, off } = run.place();
    let front = put_text(alloc, &outside.out)?;
    let last = run_on(&mut run, &mut outside);
    let all = put_text(alloc, &outside.out)?;
    Ok(format!(in alloc; "{first:?} at {obj}.{off}, {front}; {last:?}, {all}")?)
}

fn state_text(alloc: Global, answer: SymStep, run: &SymRun<'_>) -> Result<String, AllocError> {
    let Place { obj, off } = run.place();
    let state = if run.ended() { "ended" } else { "goes" };
    format!(in alloc; "{answer:?} {state} {obj}.{off}")
}

/// `ended STEPS PROGRAM => goes|ended; STATE; STATE; STATE`: whether a run has ended before its first step; then, after these
/// steps and after each of two more, ANSWER, `goes` or `ended`, and PLACE
pub fn ended(alloc: Global, input: &str) -> Result<String, Bad> {
    let (steps, said) = word(input);
    let steps = number(steps).ok_or(Bad::Text)?;
    let program = program_of(alloc, said)?;
    let Ok(mut run) = SymRun::new(alloc, &program) else {
        return Err(Bad::NoMemory);
    };
    let mut text = String::from_str(alloc, if run.ended() { "ended" } else { "goes" })?;
    let mut answer = run.run(steps, &mut NullSource, &mut NullSink, &mut NullSink);
    for _ in 0..3 {
        text.push_str("; ")?;
        text.push_str(state_text(alloc, answer, &run)?.as_str())?;
        answer = run.step(&mut NullSource, &mut NullSink, &mut NullSink);
    }
    Ok(text)
}
