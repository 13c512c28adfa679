// Rows of the making of programs.
use crate::{scan, show};
use om_io::{Bytes, Listed};
use om_isa::{Instr, Opnd};
use om_prog::{Field, Item, ProgErr, Program, RegionInit};
use om_rows::{Bad, bytes_of, number, word};
use om_value::Place;
use std::alloc::Global;

/// What a program is made of.
#[derive(Drop)]
struct Pieces {
    texts: Vec<Vec<Item>>,
    regions: Vec<RegionInit>,
    entry: Place,
}

fn text_of(alloc: Global, words: &str) -> Result<Vec<Item>, Bad> {
    // Names the types of an instruction and its operand, which the check of this loop must be told.
    let _instr: Option<Instr> = None;
    let _operand: Option<Opnd> = None;
    let mut text = Vec::new(alloc);
    for said in words.split_ascii_whitespace() {
        text.push(scan::item(said).ok_or(Bad::Text)?)?;
    }
    Ok(text)
}

fn fields_of(alloc: Global, said: &str) -> Result<Vec<Field>, Bad> {
    let mut fields = Vec::new(alloc);
    for field in said.split_ascii_whitespace() {
        fields.push(scan::field(field).ok_or(Bad::Text)?)?;
    }
    Ok(fields)
}

/// `REGION SIZE BYTES FIELD ..`
fn region_of(alloc: Global, said: &str, zero: bool) -> Result<RegionInit, Bad> {
    let (named, rest) = word(said);
    let (size, rest) = word(rest);
    let (bytes, fields) = word(rest);
    Ok(RegionInit {
        region: scan::region(named).ok_or(Bad::Text)?,
        size: number(size).ok_or(Bad::Text)?,
        zero,
        bytes: Bytes::from_vec(bytes_of(alloc, bytes)?),
        fields: Listed::from_vec(fields_of(alloc, fields)?),
    })
}

/// Adds what one part of a program's text says.
fn add_part(alloc: Global, parts: &mut Pieces, said: &str) -> Result<(), Bad> {
    let (kind, rest) = word(said);
    match kind {
        "text" => parts.texts.push(text_of(alloc, rest)?)?,
        "region" => parts.regions.push(region_of(alloc, rest, false)?)?,
        "zero" => parts.regions.push(region_of(alloc, rest, true)?)?,
        "entry" => parts.entry = scan::place(rest).ok_or(Bad::Text)?,
        _ => return Err(Bad::Text),
    }
    Ok(())
}

/// The program of a text, or why its parts are none.
fn made_of(alloc: Global, said: &str) -> Result<Result<Program, ProgErr>, Bad> {
    let mut parts = Pieces {
        texts: Vec::new(alloc),
        regions: Vec::new(alloc),
        entry: Place { obj: 0, off: 0 },
    };
    for part in said.split(';') {
        add_part(alloc, &mut parts, part.trim())?;
    }
    let Pieces {
        texts,
        regions,
        entry,
    } = parts;
    Ok(Program::make(alloc, texts, regions, entry))
}

/// The program of a text. `Text` where it is none.
pub fn program_of(alloc: Global, said: &str) -> Result<Program, Bad> {
    match made_of(alloc, said)? {
        Ok(program) => Ok(program),
        Err(ProgErr::Bad) => Err(Bad::Text),
        Err(ProgErr::NoMemory) => Err(Bad::NoMemory),
    }
}

/// `program PROGRAM => made` or `bad`
pub fn made(alloc: Global, said: &str) -> Result<String, Bad> {
    match made_of(alloc, said)? {
        Ok(_) => Ok(String::from_str(alloc, "made")?),
        Err(ProgErr::Bad) => Ok(String::from_str(alloc, "bad")?),
        Err(ProgErr::NoMemory) => Err(Bad::NoMemory),
    }
}

/// `words OBJECT PROGRAM => NUMBER`: how many words the text of an object has
pub fn words(alloc: Global, input: &str) -> Result<String, Bad> {
    let (obj, said) = word(input);
    let obj = scan::small(obj).ok_or(Bad::Text)?;
    let program = program_of(alloc, said)?;
    Ok(format!(in alloc; "{}", program.words(obj))?)
}

/// The word at a place of a program, or `none`.
pub fn item_in(alloc: Global, program: &Program, at: &str) -> Result<String, Bad> {
    let at = scan::place(at).ok_or(Bad::Text)?;
    match program.item(at) {
        Some(item) => Ok(show::item(alloc, item)?),
        None => Ok(String::from_str(alloc, "none")?),
    }
}

/// `item PLACE PROGRAM => WORD` or `none`
pub fn item(alloc: Global, input: &str) -> Result<String, Bad> {
    let (at, said) = word(input);
    let program = program_of(alloc, said)?;
    item_in(alloc, &program, at)
}

/// `parts PROGRAM => PROGRAM`: all that a program tells
pub fn parts(alloc: Global, said: &str) -> Result<String, Bad> {
    let program = program_of(alloc, said)?;
    Ok(show::program(alloc, &program)?)
}
