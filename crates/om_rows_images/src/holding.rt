// The parts of an image as text.
use crate::causes::Bad;
use crate::said::Said;
use om_image::Image;
use om_rows::text_of;
use std::alloc::{AllocError, Global};

// Words in 8 hexadecimal digits each.
fn words_text(alloc: Global, words: &[u32]) -> Result<String, Bad> {
    let mut said = Said::new(alloc);
    for word in words {
        said.word(format!(in alloc; "{word:08x}")?.as_str())?;
    }
    Ok(said.into_text())
}

// Where the image is entered, its GP value, and the bytes of zero behind its data.
fn head_text(alloc: Global, image: &Image) -> Result<String, AllocError> {
    format!(in alloc;
        "entry {:#x} gp {:#x} bss {}",
        image.entry, image.gp, image.bss
    )
}

/// A part of an image: `head`, `text`, `data`, `objects`, `tables`, `regions` or `words`.
pub fn part_text(alloc: Global, image: &Image, part: &str) -> Result<String, Bad> {
    let map = &image.map;
    match part {
        "head" => Ok(head_text(alloc, image)?),
        "text" => words_text(alloc, image.text.as_slice()),
        "data" => Ok(text_of(alloc, image.bytes.as_slice())?),
        "objects" => Ok(format!(in alloc; "{:?}", map.objects.as_slice())?),
        "tables" => Ok(format!(in alloc; "{:?}", map.tables.as_slice())?),
        "regions" => Ok(format!(in alloc; "{:?}", map.regions.as_slice())?),
        "words" => Ok(format!(in alloc; "{:?}", map.words.as_slice())?),
        _ => Err(Bad::Text),
    }
}
