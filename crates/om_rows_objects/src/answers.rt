// The answer to a row, by its kind.
use crate::{fields, headers, objects, tables};
use om_rows::{Bad, Row, word};
use std::alloc::Global;

// Rows on parts of a file, and on bytes.
fn of_parts(rt: &HostRuntime, alloc: Global, kind: &str, input: &str) -> Result<String, Bad> {
    match kind {
        "headers" => headers::headers(rt, alloc, input),
        "early" => headers::early(rt, alloc, input),
        "symbols" => tables::symbols(rt, alloc, input),
        "symbol_count" => tables::symbol_count(rt, alloc, input),
        "relocs" => tables::relocs(rt, alloc, input),
        "early_relocs" => tables::early_relocs(rt, alloc, input),
        "table" => tables::table(rt, alloc, input),
        "early_table" => tables::early_table(rt, alloc, input),
        _ => fields::answer(alloc, kind, input),
    }
}

// The answer to a row of a kind other than `cut`.
fn plain(rt: &HostRuntime, alloc: Global, kind: &str, input: &str) -> Result<String, Bad> {
    match kind {
        "object" => objects::object(rt, alloc, input),
        "fault" => objects::fault(rt, alloc, input),
        "make" => objects::make(alloc, input),
        "write" => objects::write(rt, alloc, input),
        _ => of_parts(rt, alloc, kind, input),
    }
}

// The lengths of `FROM..TO`, of which there is one at least.
fn lengths_of(text: &str) -> Option<(u32, u32)> {
    let (from, to) = text.split_once("..")?;
    let (from, to) = (from.parse().ok()?, to.parse().ok()?);
    if from < to { Some((from, to)) } else { None }
}

// The wanted answer where a row gives it for its file cut to each length of a range; else the first other one.
fn cut(rt: &HostRuntime, alloc: Global, input: &str, wanted: &str) -> Result<String, Bad> {
    let (range, row) = word(input);
    let Some((from, to)) = lengths_of(range) else {
        return Err(Bad::Text);
    };
    let (kind, input) = word(row);
    for length in from..to {
        let text = format!(in alloc; "{input} {length}:")?;
        let found = plain(rt, alloc, kind, text.as_str())?;
        if found.as_str() != wanted {
            return Ok(format!(in alloc; "{found}, cut to {length}")?);
        }
    }
    Ok(String::from_str(alloc, wanted)?)
}

/// What the crates answer to a row. `Bad::Text` where the row cannot be read.
pub fn answer(rt: &HostRuntime, alloc: Global, row: Row<'_>) -> Result<String, Bad> {
    if row.kind == "cut" {
        return cut(rt, alloc, row.input, row.wanted);
    }
    plain(rt, alloc, row.kind, row.input)
}
