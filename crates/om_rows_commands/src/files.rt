// The files of a row.
use om_io::{DirStore, Store};
use om_rows::{Bad, put_pieces};
use std::alloc::Global;
use std::rt::Files;

// The most bytes of a file that lies where the program runs.
const MOST_BYTES: u64 = 1_000_000;

/// The bytes of a file: each word adds the bytes of a file that lies where the program runs, or puts a piece over what is there.
pub fn file_of<R: Files + Drop>(
    alloc: Global,
    folder: &mut DirStore<R>,
    text: &str,
) -> Result<Vec<u8>, Bad> {
    let mut file = Vec::new(alloc);
    for word in text.split_ascii_whitespace() {
        if word.contains(":") {
            put_pieces(alloc, &mut file, word)?;
        } else if let Ok(bytes) = folder.load(alloc, word, MOST_BYTES) {
            file.extend_from_slice(bytes.as_slice())?;
        } else {
            return Err(Bad::Text);
        }
    }
    Ok(file)
}
