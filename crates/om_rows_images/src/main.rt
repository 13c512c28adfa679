// Rows on standard input for images, runs of the numeric machine, listings and the outside: prints each row whose answer differs,
// and how many rows of each kind agreed. A row is `KIND INPUT => WANTED`; `#` begins a remark. A file in a row is a name that a
// row `file` gave, or `-`, and pieces that are put over it. `vectors/listings.py` writes the rows of listings.
//
// file NAME PIECES                  gives pieces a name, and says how many bytes they make
// image FILE · holds PART FILE      whether a file of an image is read, or the broken rule; a part of the image
// write FILE · list FILE            whether the image is written as that file; the lines of its listing
// run TEXT DATA INPUT FAILS ROOM FAILS : ..      steps of the numeric machine, and what is then asked of it
// dec N · hex N DIGITS · name HEX · listed N ..  numbers as text, and the small types
// source .. · no_source .. · reader ..           reads of sources: in memory, of nothing, over a reader
// sink .. · no_sink .. · writer ..               puts into sinks: in memory, of nothing, over a writer
// store FILES ROOM FAILS ..                      loads and saves of a store in memory
#![tactic(auto)]

mod bench;
mod causes;
mod devices;
mod files;
mod holding;
mod images;
mod kinds;
mod listing;
mod numbers;
mod said;
mod setup;
mod sinks;
mod sources;
mod stores;
mod trial;
mod valid;

use crate::causes::Bad;
use crate::files::Files;
use om_rows::{Row, Tally, is_remark};
use std::alloc::{AllocError, Global};
use std::io;

// What is said in place of an answer.
fn excuse(alloc: Global, bad: Bad) -> Result<String, AllocError> {
    match bad {
        Bad::Text => String::from_str(alloc, "no row"),
        Bad::NoMemory => String::from_str(alloc, "no memory"),
    }
}

// Tries one row.
fn try_row(
    rt: &HostRuntime,
    files: &mut Files,
    tally: &mut Tally,
    line: &str,
    row: &Row,
) -> io::Result<()> {
    let answer = match kinds::answer(rt.alloc(), files, row) {
        Ok(text) => text,
        Err(bad) => excuse(rt.alloc(), bad)?,
    };
    let agrees = answer.as_str() == row.wanted;
    tally.note(row.kind, agrees)?;
    if agrees {
        return Ok(());
    }
    println!(rt; "differs: {line}")?;
    println!(rt; "was: {answer}")
}

// Tries the row of a line; a line that is no row counts as one that differs.
fn try_line(rt: &HostRuntime, files: &mut Files, tally: &mut Tally, line: &str) -> io::Result<()> {
    match Row::of(line) {
        Some(row) => try_row(rt, files, tally, line, &row),
        None => {
            tally.note("?", false)?;
            println!(rt; "differs: {line}")
        }
    }
}

fn main(rt: HostRuntime) -> io::Result<()> {
    let mut tally = Tally::new(rt.alloc());
    let mut files = Files::new(rt.alloc());
    for line in rt.lines(rt.alloc()) {
        let line = line?;
        if !is_remark(line.as_str()) {
            try_line(&rt, &mut files, &mut tally, line.as_str())?;
        }
    }
    let counts = tally.text()?;
    print!(rt; "{counts}")
}
