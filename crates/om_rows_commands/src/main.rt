// Tries the rows of the command on standard input, one a line: prints each row whose answer differs, and at the end how many rows
// of each kind agree. A row of `om` is calls over a store and streams in memory, and one of `words` says what words mean.
#![tactic(auto)]

mod calls;
mod counted;
mod files;
mod outside;
mod words;

use om_io::DirStore;
use om_rows::{Bad, Row, Tally};
use std::alloc::Global;
use std::io;
use std::rt::Files;

// What stands for a line that is no row.
const UNREAD: Row<'static> = Row {
    kind: "unread",
    input: "",
    wanted: "",
};

// The answer to a row, where its kind is known and its input can be read.
fn answer_to<R: Files + Drop>(
    alloc: Global,
    folder: &mut DirStore<R>,
    row: Row<'_>,
) -> Result<String, Bad> {
    match row.kind {
        "om" => calls::answer_to(alloc, folder, row.input),
        "words" => words::answer_to(alloc, row.input),
        _ => Err(Bad::Text),
    }
}

fn main(rt: HostRuntime) -> io::Result<()> {
    let mut tally = Tally::new(rt.alloc());
    let mut folder = DirStore::new(rt);
    for line in rt.lines(rt.alloc()) {
        let line = line?;
        let row = Row::of(line.as_str()).unwrap_or(UNREAD);
        let answer = answer_to(rt.alloc(), &mut folder, row);
        let agrees = matches!(&answer, Ok(said) if said.as_str() == row.wanted);
        tally.note(row.kind, agrees)?;
        if !agrees {
            println!(rt; "differs: {line}")?;
            println!(rt; "was: {answer:?}")?;
        }
    }
    let counts = tally.text()?;
    print!(rt; "{counts}")
}
