// The current folder. It tells no content.
ghost use Rattle.std.specs.Prelude.{◌≡◌, ◌≤◌, length, IfOk};
ghost use Rattle.om_io.specs.StoreCounts.{IsFresh, last_failed_in};

use crate::counts::Counts;
use crate::{Bytes, Failed, LoadErr, Store};
use std::alloc::Global;
use std::fs;
use std::io::{self, ErrorKind, Read};
use std::rt::Files;

/// The current folder as a store, by the runtime that reaches it. It tells no content: what a file holds
/// is the system's word.
///
/// A name is the path of a file, from the current folder where it is relative. A save replaces the file of
/// its name, or makes it where there is none.
#[derive(Drop)]
pub struct DirStore<R: Drop> {
    files: R,
    counts: Counts,
}

impl<R: Drop> DirStore<R> {
    ghost use Rattle.om_io.specs.Adapters.{folder_counts, folder_of};

    /// The folder that `files` reaches. Nothing was asked of it so far.
    pub fn new(files: R) -> Self
        ensures folder { folder_of result ≡ files }
        ensures counts { IsFresh (folder_counts result) }
    {
        DirStore {
            files,
            counts: Counts::new(),
        }
    }
}

// What the system's error means: that a file is not found is no failure.
fn load_error(error: io::Error) -> LoadErr {
    match error.kind() {
        ErrorKind::NotFound => LoadErr::Missing,
        ErrorKind::OutOfMemory => LoadErr::NoMemory,
        _ => LoadErr::Failed,
    }
}

// At most one byte more than `max` of a file.
fn read_some<R: Files>(files: &R, alloc: Global, name: &str, max: u64) -> Result<Vec<u8>, LoadErr> {
    let file = match fs::open(files, name) {
        Ok(file) => file,
        Err(error) => return Err(load_error(error)),
    };
    let mut bytes = Vec::new(alloc);
    match file.take(max.saturating_add(1)).read_to_end(&mut bytes) {
        Ok(_) => Ok(bytes),
        Err(error) => Err(load_error(error)),
    }
}

impl<R: Files + Drop> Store for DirStore<R> {
    ghost use Rattle.std.specs.Prelude.{false, None};
    ghost use Rattle.om_io.specs.Adapters.{folder_counts};

    ghost tells = { λ s. false };

    ghost file = { λ s name. None };

    ghost failed_loads = { λ s. (folder_counts s).failed_loads };

    ghost failed_saves = { λ s. (folder_counts s).failed_saves };

    ghost last_failed = { λ s. last_failed_in (folder_counts s) };

    ghost loads_asked = { λ s. (folder_counts s).loads };

    ghost saves_asked = { λ s. (folder_counts s).saves };

    /// Reads the file whole, from its start.
    ///
    /// `Missing` comes where the system finds no such file, `TooLong` where the file gives more than `max`
    /// bytes, `NoMemory` where there is no memory for a copy of the name or for the bytes, and `Failed`,
    /// which is counted, at every other error of the system: a folder of that name, say, or one that may
    /// not be read.
    fn load(&mut self, alloc: Global, name: &str, max: u64) -> Result<Bytes, LoadErr> {
        self.counts.ask_load();
        let copy = match Vec::from_slice(alloc, name.as_bytes()) {
            Ok(copy) => copy,
            Err(_) => return Err(LoadErr::NoMemory),
        };
        match read_some(&self.files, alloc, name, max) {
            Ok(bytes) => {
                if bytes.len() as u64 > max {
                    return Err(LoadErr::TooLong);
                }
                Ok(Bytes::from_vec(bytes))
            }
            Err(LoadErr::Failed) => {
                self.counts.fail_load(copy);
                Err(LoadErr::Failed)
            }
            Err(error) => Err(error),
        }
    }

    /// Makes the file, or replaces all that it held, by these bytes.
    ///
    /// `Failed`, which is counted, comes at every error of the system; then the file may hold a part of the
    /// bytes, or what it held before.
    fn save(&mut self, name: &str, bytes: &[u8]) -> Result<(), Failed> {
        self.counts.ask_save();
        match fs::write(&self.files, name, bytes) {
            Ok(()) => Ok(()),
            Err(_) => {
                self.counts.fail_save();
                Err(Failed)
            }
        }
    }
}
