// Rows of programs, on standard input: symbolic values, the making of programs, their runs, names, graphs and arenas.
//
// A row is `KIND INPUT => WANTED`; each that differs is printed, and at the end how many of each kind agreed. A line
// `let NAME TEXT` gives a text a name, and the word `$NAME` stands for it from there on. A line that begins with `#`
// says what follows it. The modules say what the input of each kind is. A program has this form, in parts between `;`:
//
//     text WORD ..                          the words of the next object, from 0
//     region REGION SIZE BYTES FIELD ..     a region with its first bytes and its fields
//     zero REGION SIZE BYTES FIELD ..       a region that is `zero`
//     entry PLACE                           where it starts; 0.0 where nothing says it
//
// - WORD: `HEX`, `HEX/HEX` (with the instruction of the second word) or either with `=ROLE`, where ROLE is `lit:TARGET`,
//   `hi:PLACE` (by its base), `lo:PLACE` (by its high half) or `to:PLACE`. A word without an instruction has HALT's.
// - PLACE: `OBJECT.OFFSET`. REGION: `secOBJECT.NUMBER`, `comNAME`, `stack` or `heap`.
// - TARGET: `NUMBER`, `REGION+OFFSET` or `@PLACE`.
// - VALUE: as TARGET, or `gpOBJECT`, `halfPLACE` or `fromOBJECT:TARGET`, which is a distance from a global pointer.
// - FIELD: `OFFSET/WIDTH=VALUE`. BYTES: pairs of hexadecimal digits, `-` for none.
#![tactic(auto)]

mod arenas;
mod blocks;
mod formula;
mod graphs;
mod names;
mod objects;
mod programs;
mod runs;
mod scan;
mod show;
mod texts;
mod values;

use crate::texts::Texts;
use om_rows::{Bad, Row, Tally};
use std::alloc::Global;
use std::io;

/// What is answered to a row of a kind.
fn answer(alloc: Global, kind: &str, input: &str) -> Result<String, Bad> {
    match kind {
        "operation" => values::operation(alloc, input),
        "sum" => values::sum(alloc, input),
        "condition" => values::condition(alloc, input),
        "program" => programs::made(alloc, input),
        "words" => programs::words(alloc, input),
        "item" => programs::item(alloc, input),
        "parts" => programs::parts(alloc, input),
        "run" => runs::run(alloc, input),
        "streams" => runs::streams(alloc, input),
        "ended" => runs::ended(alloc, input),
        _ => linked_answer(alloc, kind, input),
    }
}

/// What is answered to a row of the other kinds.
fn linked_answer(alloc: Global, kind: &str, input: &str) -> Result<String, Bad> {
    match kind {
        "resolve" => names::resolved(alloc, input),
        "linked" => names::linked(alloc, input),
        "role" => names::role(alloc, input),
        "lift" => blocks::lifted(alloc, input),
        "roots" => blocks::roots(alloc, input),
        "touched" => blocks::touched(alloc, input),
        "graph" => graphs::edits(alloc, input),
        "table" => graphs::table(alloc, input),
        "index" => graphs::index(alloc, input),
        "arena" => arenas::edits(alloc, input),
        _ => Err(Bad::Text),
    }
}

/// What is answered to a row, also where it cannot be read.
fn said(alloc: Global, texts: &Texts, row: Row<'_>) -> io::Result<String> {
    let input = match texts.filled(row.input) {
        Ok(input) => input,
        Err(_) => return Ok(String::from_str(alloc, "a name without a text")?),
    };
    match answer(alloc, row.kind, input.as_str()) {
        Ok(text) => Ok(text),
        Err(Bad::Text) => Ok(String::from_str(alloc, "not to be read")?),
        Err(Bad::NoMemory) => Ok(String::from_str(alloc, "no memory")?),
    }
}

/// Tries a line that gives no name.
fn try_line(rt: &HostRuntime, texts: &Texts, tally: &mut Tally, line: &str) -> io::Result<()> {
    let Some(row) = Row::of(line) else {
        println!(rt; "differs: {line}")?;
        return Ok(tally.note("line", false)?);
    };
    let text = said(rt.alloc(), texts, row)?;
    let agrees = text.as_str() == row.wanted;
    if !agrees {
        println!(rt; "differs: {line}")?;
        println!(rt; "was: {text}")?;
    }
    Ok(tally.note(row.kind, agrees)?)
}

fn main(rt: HostRuntime) -> io::Result<()> {
    let mut texts = Texts::new(rt.alloc());
    let mut tally = Tally::new(rt.alloc());
    for line in rt.lines(rt.alloc()) {
        let line = line?;
        if line.is_empty() || line.starts_with('#') {
            continue;
        }
        match line.strip_prefix("let ") {
            Some(rest) if texts.add(rest).is_ok() => {}
            _ => try_line(&rt, &texts, &mut tally, line.as_str())?,
        }
    }
    print!(rt; "{}", tally.text()?)
}
