// Rows of names: the program that objects are, or why they are none.
use crate::objects::objects_of;
use crate::programs::item_in;
use crate::show;
use om_object::Object;
use om_prog::Program;
use om_resolve::{ResolveErr, resolve};
use om_rows::{Bad, word};
use std::alloc::{AllocError, Global};

/// The program of objects, or the cause why they are none.
fn answer_of(alloc: Global, objects: &[Object]) -> Result<Program, ResolveErr> {
    if objects.len() >= 0x1_0000_0000 {
        return Err(ResolveErr::NoMemory);
    }
    resolve(alloc, objects)
}

fn words_in(program: &Program) -> u64 {
    let mut sum: u64 = 0;
    for obj in 0..program.objects() {
        sum = sum.saturating_add(u64::from(program.words(obj)));
    }
    sum
}

/// A name's bytes, those of ASCII as they are.
fn name_text(alloc: Global, name: &[u8]) -> Result<String, AllocError> {
    let mut text = String::new(alloc);
    for byte in name {
        text.push(char::from(*byte))?;
    }
    Ok(text)
}

fn cause_text(alloc: Global, cause: ResolveErr) -> Result<String, AllocError> {
    match cause {
        ResolveErr::Duplicate {
            name,
            first,
            second,
        } => {
            let name = name_text(alloc, name.as_slice())?;
            format!(in alloc; "duplicate {name} {first} {second}")
        }
        ResolveErr::Unresolved { name, file } => {
            let name = name_text(alloc, name.as_slice())?;
            format!(in alloc; "unresolved {name} {file}")
        }
        ResolveErr::Rule { file, rule, at } => format!(in alloc; "rule {rule} in {file} at {at}"),
        ResolveErr::Limit { which, total } => format!(in alloc; "limit {which:?} {total}"),
        ResolveErr::TooFar { from, words } => {
            format!(in alloc; "too far {}.{} {words}", from.obj, from.off)
        }
        ResolveErr::NoMemory => String::from_str(alloc, "no memory"),
    }
}

/// `resolve OBJECTS => N words`, where there are so many in all, or the cause
pub fn resolved(alloc: Global, said: &str) -> Result<String, Bad> {
    let objects = objects_of(alloc, said)?;
    match answer_of(alloc, objects.as_slice()) {
        Ok(program) => Ok(format!(in alloc; "{} words", words_in(&program))?),
        Err(cause) => Ok(cause_text(alloc, cause)?),
    }
}

/// The program of objects. `Text` where they are none.
fn program_of(alloc: Global, said: &str) -> Result<Program, Bad> {
    let objects = objects_of(alloc, said)?;
    match answer_of(alloc, objects.as_slice()) {
        Ok(program) => Ok(program),
        Err(_) => Err(Bad::Text),
    }
}

/// `linked OBJECTS => PROGRAM`: all that the program of objects tells
pub fn linked(alloc: Global, said: &str) -> Result<String, Bad> {
    let program = program_of(alloc, said)?;
    Ok(show::program(alloc, &program)?)
}

/// `role PLACE OBJECTS => WORD` or `none`: a word of the program of objects
pub fn role(alloc: Global, input: &str) -> Result<String, Bad> {
    let (at, said) = word(input);
    let program = program_of(alloc, said)?;
    item_in(alloc, &program, at)
}
