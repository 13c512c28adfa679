// What a row of `om` says besides its calls: files, input, room, the calls that fail, and how the answer is shown.
use crate::files::file_of;
use om_io::{Bytes, DirStore};
use om_rows::{Bad, number, word};
use std::alloc::{AllocError, Global};
use std::rt::Files;

// The number of a call that is never made.
const NEVER: u64 = u64::MAX;

// The bytes of saves, and those on `out`, for which there is room where a row says nothing of it.
const ROOM: u64 = 65_536;

const SPACE: u64 = 8192;

/// The calls that fail, by their numbers from 0 on: of the store, loads and saves together, and of each stream.
#[derive(Clone, Copy)]
pub struct Fails {
    pub store: u64,
    pub input: u64,
    pub out: u64,
    pub err: u64,
}

/// What an answer shows of the bytes on `out`.
#[derive(Clone, Copy)]
pub enum Shown {
    All,
    LastLine,
    Count,
}

/// What stands around the calls of a row.
#[derive(Drop)]
pub struct Outside {
    pub files: Vec<(String, Bytes)>,
    pub input: String,
    pub room: u64,
    pub space: u64,
    pub fails: Fails,
    pub shown: Shown,
    /// Whether the answer says how many loads and saves were asked for.
    pub counts: bool,
    /// The offsets between which the answer shows the bytes of a file that was saved, with the length of all of it.
    pub part: Option<(u64, u64)>,
}

/// Adds a file of a name.
pub fn add_file(
    alloc: Global,
    files: &mut Vec<(String, Bytes)>,
    name: &str,
    file: Vec<u8>,
) -> Result<(), AllocError> {
    let name = String::from_str(alloc, name)?;
    files.push((name, Bytes::from_vec(file)))?;
    Ok(())
}

// A setting that is a number.
fn number_in(text: &str) -> Result<u64, Bad> {
    number(text).ok_or(Bad::Text)
}

// Two offsets.
fn part_in(text: &str) -> Result<(u64, u64), Bad> {
    let (from, to) = word(text);
    Ok((number_in(from)?, number_in(to)?))
}

impl Outside {
    /// No files, no input, and nothing that fails.
    pub fn new(alloc: Global) -> Outside {
        Outside {
            files: Vec::new(alloc),
            input: String::new(alloc),
            room: ROOM,
            space: SPACE,
            fails: Fails {
                store: NEVER,
                input: NEVER,
                out: NEVER,
                err: NEVER,
            },
            shown: Shown::All,
            counts: false,
            part: None,
        }
    }

    // Takes a setting, by its first word.
    fn set(&mut self, alloc: Global, key: &str, value: &str) -> Result<(), Bad> {
        match key {
            "input" => self.input = String::from_str(alloc, value)?,
            "room" => self.room = number_in(value)?,
            "space" => self.space = number_in(value)?,
            "store" => self.fails.store = number_in(value)?,
            "reads" => self.fails.input = number_in(value)?,
            "out" => self.fails.out = number_in(value)?,
            "err" => self.fails.err = number_in(value)?,
            "last" => self.shown = Shown::LastLine,
            "count" => self.shown = Shown::Count,
            "calls" => self.counts = true,
            "part" => self.part = Some(part_in(value)?),
            _ => return Err(Bad::Text),
        }
        Ok(())
    }

    /// Takes one part of a row: `NAME: FILE`, as `files::file_of` reads it, or a setting.
    ///
    /// The settings are `input TEXT`, `room COUNT` for saves, `space COUNT` on `out`, the numbers of calls that fail (`store N`,
    /// `reads N`, `out N`, `err N`), and what is shown: `last` and `count` of what is on `out`, `calls` of the store,
    /// `part FROM TO` of what was saved.
    pub fn take<R: Files + Drop>(
        &mut self,
        alloc: Global,
        folder: &mut DirStore<R>,
        part: &str,
    ) -> Result<(), Bad> {
        let (key, value) = word(part);
        let Some(name) = key.strip_suffix(":") else {
            return self.set(alloc, key, value);
        };
        let file = file_of(alloc, folder, value)?;
        Ok(add_file(alloc, &mut self.files, name, file)?)
    }

    /// What a file holds at the start.
    pub fn file(&self, name: &str) -> Option<&[u8]> {
        let found = self.files.iter().find(|it| it.0.as_str() == name)?;
        Some(found.1.as_slice())
    }
}
