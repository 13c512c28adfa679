// Loading object files.
ghost use Rattle.std.specs.Prelude.{◌≡◌, ◌≤◌, ◌-◌, length, Some, IsTrue, IfOk, IfErr, OnOk};
ghost use Rattle.om_object.specs.File.{IsAccepted, parts_of};
ghost use Rattle.om_words.specs.Sentences.{texts};
ghost use Rattle.om_command.specs.StoreCalls.{most_bytes};
ghost use Rattle.om_command.specs.Loading.{Loads, AllLoaded, IsObjectIn, IsNoObject, StopsAt, load_stop, object_stop};
ghost use Rattle.om_command.specs.StoreCalls.{LoadsOne, NoLoadFailed};
ghost use Rattle.om_command.specs.World.{files_of};

use om_io::{Listed, LoadErr, Store};
use om_object::{ObjErr, Object, read_object};
use std::alloc::Global;

/// More objects than this have no numbers. So many names do not fit into memory.
pub(crate) const MOST_OBJECTS: usize = 0xffff_ffff;

// The most bytes of the files of one call.
const MOST_BYTES: u64 = 268_435_456;

/// Why a file gives no object.
#[derive(Clone, Copy, Debug, PartialEq, Eq)]
pub enum FileStop {
    /// There is no file of that name.
    Missing,
    /// The file has more bytes than are left for the call.
    TooLong,
    /// The rule of object files with this number is broken at this place, a byte offset in the file.
    Rule { rule: u8, at: u64 },
    /// The store's load failed.
    ReadFault,
    /// Memory ran out.
    NoMemory,
}

/// A file that gives no object, by its place among the files from 0 on.
#[derive(Clone, Copy, Debug, PartialEq, Eq)]
pub struct Refused {
    pub place: usize,
    pub stop: FileStop,
}

fn stop_of_load(e: LoadErr) -> FileStop
    ensures { result ≡ load_stop e }
{
    match e {
        LoadErr::Failed => FileStop::ReadFault,
        LoadErr::Missing => FileStop::Missing,
        LoadErr::TooLong => FileStop::TooLong,
        LoadErr::NoMemory => FileStop::NoMemory,
    }
}

fn stop_of_object(e: ObjErr) -> FileStop
    ensures { result ≡ object_stop e }
{
    match e {
        ObjErr::Rule { rule, at } => FileStop::Rule { rule, at },
        ObjErr::NoMemory => FileStop::NoMemory,
    }
}

/// An object that was loaded, and how many bytes its file has.
#[derive(Drop, Debug)]
pub struct Loaded {
    pub object: Object,
    pub size: u64,
}

// Loads the object in a file of at most `left` bytes.
fn load_object<S: Store>(
    alloc: Global,
    name: &str,
    left: u64,
    store: &mut S,
) -> Result<Loaded, FileStop>
    ensures files { LoadsOne
        (files_of (S.tells store.old) (S.file store.old) (S.failed_loads store.old) (S.failed_saves store.old)
        (S.last_failed store.old) (S.loads_asked store.old) (S.saves_asked store.old))
        (files_of (S.tells store.new) (S.file store.new) (S.failed_loads store.new) (S.failed_saves store.new)
        (S.last_failed store.new) (S.loads_asked store.new) (S.saves_asked store.new)) }
    ensures holds { IfOk result (λ loaded. IsObjectIn name.now left
        (files_of (S.tells store.old) (S.file store.old) (S.failed_loads store.old) (S.failed_saves store.old)
        (S.last_failed store.old) (S.loads_asked store.old) (S.saves_asked store.old)) loaded) }
    ensures unfailed { OnOk result (NoLoadFailed
        (files_of (S.tells store.old) (S.file store.old) (S.failed_loads store.old) (S.failed_saves store.old)
        (S.last_failed store.old) (S.loads_asked store.old) (S.saves_asked store.old))
        (files_of (S.tells store.new) (S.file store.new) (S.failed_loads store.new) (S.failed_saves store.new)
        (S.last_failed store.new) (S.loads_asked store.new) (S.saves_asked store.new))) }
    ensures unread { IfErr result (λ stop. IsNoObject stop name.now left
        (files_of (S.tells store.old) (S.file store.old) (S.failed_loads store.old) (S.failed_saves store.old)
        (S.last_failed store.old) (S.loads_asked store.old) (S.saves_asked store.old))
        (files_of (S.tells store.new) (S.file store.new) (S.failed_loads store.new) (S.failed_saves store.new)
        (S.last_failed store.new) (S.loads_asked store.new) (S.saves_asked store.new))) }
{
    let bytes = match store.load(alloc, name, left) {
        Ok(bytes) => bytes,
        Err(e) => return Err(stop_of_load(e)),
    };
    match read_object(alloc, bytes.as_slice()) {
        Ok(object) => Ok(Loaded {
            object,
            size: bytes.as_slice().len() as u64,
        }),
        Err(e) => Err(stop_of_object(e)),
    }
}

/// Loads the objects in files, in the order in which the words name them, with at most 268,435,456 bytes in all; or says which file gives none.
pub(crate) fn load_objects<S: Store>(
    alloc: Global,
    names: &[String],
    store: &mut S,
) -> Result<Listed<Object>, Refused>
    ensures loaded { IfOk result (λ objects. AllLoaded (texts names.now) objects
        (files_of (S.tells store.old) (S.file store.old) (S.failed_loads store.old) (S.failed_saves store.old)
        (S.last_failed store.old) (S.loads_asked store.old) (S.saves_asked store.old))
        (files_of (S.tells store.new) (S.file store.new) (S.failed_loads store.new) (S.failed_saves store.new)
        (S.last_failed store.new) (S.loads_asked store.new) (S.saves_asked store.new))) }
    ensures refused { IfErr result (λ refused. StopsAt (texts names.now) refused.place refused.stop
        (files_of (S.tells store.old) (S.file store.old) (S.failed_loads store.old) (S.failed_saves store.old)
        (S.last_failed store.old) (S.loads_asked store.old) (S.saves_asked store.old))
        (files_of (S.tells store.new) (S.file store.new) (S.failed_loads store.new) (S.failed_saves store.new)
        (S.last_failed store.new) (S.loads_asked store.new) (S.saves_asked store.new))) }
{
    let mut objects = Vec::new(alloc);
    let mut left = MOST_BYTES;
    for (place, name) in names.iter().enumerate() {
        let loaded = match load_object(alloc, name.as_str(), left, store) {
            Ok(loaded) => loaded,
            Err(stop) => return Err(Refused { place, stop }),
        };
        left -= loaded.size;
        match objects.push(loaded.object) {
            Ok(()) => {}
            Err(_) => {
                return Err(Refused {
                    place,
                    stop: FileStop::NoMemory,
                });
            }
        }
    }
    Ok(Listed::from_vec(objects))
}
