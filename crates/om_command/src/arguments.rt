// The words of the command line.
ghost use Rattle.std.specs.Prelude.{◌≡◌, IsUtf8, [], string_bytes};

use std::alloc::{AllocError, Global};
use std::env::{Env, FillError};

// How many bytes are tried first for a word.
const FIRST_ROOM: usize = 4096;

// The text of a word. One that is not UTF-8 stands as the empty word, which no sentence has.
fn text_of(alloc: Global, bytes: Vec<u8>) -> String
    ensures text { IsUtf8 bytes.items → string_bytes result ≡ bytes.items }
    ensures none { (IsUtf8 bytes.items → ⊥) → string_bytes result ≡ [] }
{
    match String::from_utf8(bytes) {
        Ok(text) => text,
        Err(_) => String::new(alloc),
    }
}

// The word at a place of the command line, where 0 is the program's own name.
fn word_at(rt: &HostRuntime, place: usize) -> Result<Option<String>, AllocError> {
    let mut room = FIRST_ROOM;
    for _ in 0..usize::BITS {
        let mut bytes = vec![in rt.alloc(); 0u8; room]?;
        match rt.arg(place, bytes.as_mut_slice()) {
            Ok(count) => {
                bytes.truncate(count);
                return Ok(Some(text_of(rt.alloc(), bytes)));
            }
            Err(FillError::NotPresent) => return Ok(None),
            Err(FillError::TooLong) => room = room.saturating_add(room),
        }
    }
    Err(AllocError)
}

/// The words of the command line, without the program's own name.
///
/// A word that is not UTF-8 stands as the empty word. No sentence has that, so it is a wrong word at its place.
pub fn words_of(rt: &HostRuntime) -> Result<Vec<String>, AllocError> {
    let mut words = Vec::new(rt.alloc());
    for place in 1..usize::MAX {
        match word_at(rt, place)? {
            Some(word) => words.push(word)?,
            None => break,
        }
    }
    Ok(words)
}
