// Rows on standard input for the readers, the maker and the writer of object files: prints each row whose answer differs, and how
// many rows of each kind agreed. A row is `KIND INPUT => WANTED`; `#` begins a remark. A file in a row is the name of one that
// lies where this runs, or `-`, and pieces that are put over it. `files/generate.py` writes those files.
//
// headers FILE · early FILE                    the headers in a file, or the broken rule; early: a rule other than 24
// symbols PLACE FILE · symbol_count PLACE FILE  the symbols by the symbolic header at a place, or how many; or the broken rule
// relocs AT COUNT PLACE FILE · table ..         the entries of a table at an offset, whose section's header has a place, or how
//     many; or the broken rule. early_relocs and early_table: a rule other than 26
// object FILE · fault FILE                      the object in a file, or the broken rule; the rule alone, or `none`
// make OBJECT · write FILE; OBJECT              whether parts are an object; whether an object is written as that file
// u16 AT BYTES, u32, u64 · words AT COUNT BYTES  numbers in bytes
// file_header .. · optional_header .. · section_header .. · push_words ..   headers and words as bytes
// cut FROM..TO KIND INPUT                       the answer to each row of that kind whose file is cut to a length of the range
#![tactic(auto)]

mod answers;
mod fields;
mod files;
mod headers;
mod objects;
mod parts;
mod sizes;
mod tables;

use crate::answers::answer;
use om_rows::{Bad, Row, Tally, is_remark};
use std::alloc::{AllocError, Global};
use std::io;

// A row's answer, or why it has none.
fn answer_text(rt: &HostRuntime, alloc: Global, row: Row<'_>) -> Result<String, AllocError> {
    match answer(rt, alloc, row) {
        Ok(text) => Ok(text),
        Err(Bad::Text) => String::from_str(alloc, "the row cannot be read"),
        Err(Bad::NoMemory) => String::from_str(alloc, "no memory for the row"),
    }
}

// Tries one line.
fn try_line(rt: &HostRuntime, tally: &mut Tally, line: &str) -> io::Result<()> {
    let Some(row) = Row::of(line) else {
        tally.note("unread", false)?;
        return println!(rt; "differs: {line}");
    };
    let text = answer_text(rt, rt.alloc(), row)?;
    let agrees = text.as_str() == row.wanted;
    tally.note(row.kind, agrees)?;
    if agrees {
        return Ok(());
    }
    println!(rt; "differs: {line}\nwas: {text}")
}

fn main(rt: HostRuntime) -> io::Result<()> {
    let mut tally = Tally::new(rt.alloc());
    for line in rt.lines(rt.alloc()) {
        let line = line?;
        if !is_remark(line.as_str()) {
            try_line(&rt, &mut tally, line.as_str())?;
        }
    }
    let text = tally.text()?;
    print!(rt; "{text}")
}
