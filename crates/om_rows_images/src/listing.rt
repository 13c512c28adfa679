// Listings of images.
use crate::causes::Bad;
use crate::images::refusal;
use om_image::read_image;
use om_io::{Failed, MemSink};
use om_listing::list;
use std::alloc::Global;
use std::str;

/// The most bytes of a listing.
const ROOM: u64 = 100_000;

// Lines in one: a semicolon behind each.
fn joined(alloc: Global, lines: &[u8]) -> Result<String, Bad> {
    let lines = str::from_utf8(lines).map_err(|_| Bad::Text)?;
    let mut text = String::new(alloc);
    for (k, line) in lines.split('\n').enumerate() {
        if k > 0 {
            text.push_str(";")?;
        }
        if k > 0 && !line.is_empty() {
            text.push_str(" ")?;
        }
        text.push_str(line)?;
    }
    Ok(text)
}

/// `list FILE`: the lines of the listing of the image in the file, with a semicolon behind each.
pub fn listed(alloc: Global, file: &[u8]) -> Result<String, Bad> {
    let image = match read_image(alloc, file) {
        Ok(image) => image,
        Err(e) => return refusal(alloc, e),
    };
    let mut out = MemSink::new(alloc, ROOM, Vec::new(alloc))?;
    match list(&image, &mut out) {
        Ok(()) => joined(alloc, out.bytes()),
        Err(Failed) => Ok(String::from_str(alloc, "failed")?),
    }
}
