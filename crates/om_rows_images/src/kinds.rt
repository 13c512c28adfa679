// The kinds of rows.
use crate::causes::Bad;
use crate::files::Files;
use crate::{images, listing, numbers, sinks, sources, stores, trial};
use om_rows::{Row, word};
use std::alloc::Global;

// The kinds of images: a file of pieces stands last.
fn of_images(alloc: Global, files: &Files, row: &Row) -> Result<String, Bad> {
    match row.kind {
        "image" => images::read(alloc, &files.file(row.input)?),
        "write" => images::write_again(alloc, &files.file(row.input)?),
        "list" => listing::listed(alloc, &files.file(row.input)?),
        "holds" => {
            let (part, file) = word(row.input);
            images::hold(alloc, part, &files.file(file)?)
        }
        _ => Err(Bad::Text),
    }
}

// The kinds of the outside.
fn of_outside(alloc: Global, row: &Row) -> Result<String, Bad> {
    match row.kind {
        "source" => sources::in_memory(alloc, row.input),
        "no_source" => sources::of_nothing(alloc, row.input),
        "reader" => sources::over_reader(alloc, row.input),
        "sink" => sinks::in_memory(alloc, row.input),
        "no_sink" => sinks::of_nothing(alloc, row.input),
        "writer" => sinks::over_writer(alloc, row.input),
        "store" => stores::in_memory(alloc, row.input),
        _ => Err(Bad::Text),
    }
}

/// What a row's call answers, as text.
pub fn answer(alloc: Global, files: &mut Files, row: &Row) -> Result<String, Bad> {
    match row.kind {
        "file" => files.add(row.input),
        "image" | "write" | "list" | "holds" => of_images(alloc, files, row),
        "run" => trial::answer(alloc, row.input),
        "dec" => numbers::decimal(alloc, row.input),
        "hex" => numbers::hexadecimal(alloc, row.input),
        "name" => numbers::name_bytes(alloc, row.input),
        "listed" => numbers::items(alloc, row.input),
        _ => of_outside(alloc, row),
    }
}
