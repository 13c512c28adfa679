// Rows of symbolic values.
use crate::{scan, show};
use om_isa::{Instr, decode};
use om_rows::{Bad, number, word};
use om_value::{Value, lift, lift_add, lift_cond};
use std::alloc::{AllocError, Global};

/// A value, or `none`.
fn text_of(alloc: Global, found: Option<Value>) -> Result<String, AllocError> {
    match found {
        Some(held) => show::value(alloc, held),
        None => String::from_str(alloc, "none"),
    }
}

fn operation_of(input: &str) -> Option<Option<Value>> {
    let (said, rest) = word(input);
    let (size, rest) = word(rest);
    let (a, b) = word(rest);
    let Instr::Alu { op, .. } = decode(scan::code(said)?)? else {
        return None;
    };
    let size = number(size)?;
    Some(lift(op, scan::value(a)?, size, scan::value(b)?, size))
}

/// `operation WORD SIZE VALUE VALUE => VALUE` or `none`: the operation of an instruction, where the regions have a size
pub fn operation(alloc: Global, input: &str) -> Result<String, Bad> {
    let found = operation_of(input).ok_or(Bad::Text)?;
    Ok(text_of(alloc, found)?)
}

fn sum_of(input: &str) -> Option<Option<Value>> {
    let (a, n) = word(input);
    Some(lift_add(scan::value(a)?, n.parse::<i64>().ok()?))
}

/// `sum VALUE NUMBER => VALUE` or `none`
pub fn sum(alloc: Global, input: &str) -> Result<String, Bad> {
    let found = sum_of(input).ok_or(Bad::Text)?;
    Ok(text_of(alloc, found)?)
}

fn condition_of(input: &str) -> Option<Option<bool>> {
    let (said, rest) = word(input);
    let (size, a) = word(rest);
    let Instr::Cmov { cond, .. } = decode(scan::code(said)?)? else {
        return None;
    };
    Some(lift_cond(cond, scan::value(a)?, number(size)?))
}

/// `condition WORD SIZE VALUE => yes`, `no` or `none`: the test of a conditional move
pub fn condition(alloc: Global, input: &str) -> Result<String, Bad> {
    let text = match condition_of(input).ok_or(Bad::Text)? {
        Some(true) => "yes",
        Some(false) => "no",
        None => "none",
    };
    Ok(String::from_str(alloc, text)?)
}
