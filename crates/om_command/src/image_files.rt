// Loading images.
ghost use Rattle.std.specs.Prelude.{◌≡◌, IfOk, IfErr, OnOk};
ghost use Rattle.om_command.specs.ImageStops.{IsUnread, HoldsImage, image_load_stop, image_stop};
ghost use Rattle.om_command.specs.StoreCalls.{LoadsOne, NoLoadFailed};
ghost use Rattle.om_command.specs.World.{files_of};

use crate::image_stop::ImageStop;
use om_image::{Image, ImageErr, read_image};
use om_io::{LoadErr, Store};
use std::alloc::Global;

// The most bytes of the files of one call.
const MOST_BYTES: u64 = 268_435_456;

// What a load that gave no file stops a command with.
fn stop_of_load(e: LoadErr) -> ImageStop
    ensures { result ≡ image_load_stop e }
{
    match e {
        LoadErr::Failed => ImageStop::ReadFault,
        LoadErr::Missing => ImageStop::Missing,
        LoadErr::TooLong => ImageStop::TooLong,
        LoadErr::NoMemory => ImageStop::NoMemory,
    }
}

// What a file that is no image stops a command with.
fn stop_of_image(e: ImageErr) -> ImageStop
    ensures { result ≡ image_stop e }
{
    match e {
        ImageErr::Rule { rule, at } => ImageStop::Rule { rule, at },
        ImageErr::NoMemory => ImageStop::NoMemory,
    }
}

/// Loads an image from a file of at most 268,435,456 bytes. One load is asked for.
pub(crate) fn load_image<S: Store>(
    alloc: Global,
    name: &str,
    store: &mut S,
) -> Result<Image, ImageStop>
    ensures files { LoadsOne
        (files_of (S.tells store.old) (S.file store.old) (S.failed_loads store.old) (S.failed_saves store.old)
        (S.last_failed store.old) (S.loads_asked store.old) (S.saves_asked store.old))
        (files_of (S.tells store.new) (S.file store.new) (S.failed_loads store.new) (S.failed_saves store.new)
        (S.last_failed store.new) (S.loads_asked store.new) (S.saves_asked store.new)) }
    ensures holds { IfOk result (λ i. HoldsImage name.now
        (files_of (S.tells store.old) (S.file store.old) (S.failed_loads store.old) (S.failed_saves store.old)
        (S.last_failed store.old) (S.loads_asked store.old) (S.saves_asked store.old)) i) }
    ensures unfailed { OnOk result (NoLoadFailed
        (files_of (S.tells store.old) (S.file store.old) (S.failed_loads store.old) (S.failed_saves store.old)
        (S.last_failed store.old) (S.loads_asked store.old) (S.saves_asked store.old))
        (files_of (S.tells store.new) (S.file store.new) (S.failed_loads store.new) (S.failed_saves store.new)
        (S.last_failed store.new) (S.loads_asked store.new) (S.saves_asked store.new))) }
    ensures unread { IfErr result (λ stop. IsUnread stop name.now
        (files_of (S.tells store.old) (S.file store.old) (S.failed_loads store.old) (S.failed_saves store.old)
        (S.last_failed store.old) (S.loads_asked store.old) (S.saves_asked store.old))
        (files_of (S.tells store.new) (S.file store.new) (S.failed_loads store.new) (S.failed_saves store.new)
        (S.last_failed store.new) (S.loads_asked store.new) (S.saves_asked store.new))) }
{
    let bytes = match store.load(alloc, name, MOST_BYTES) {
        Ok(bytes) => bytes,
        Err(e) => return Err(stop_of_load(e)),
    };
    match read_image(alloc, bytes.as_slice()) {
        Ok(image) => Ok(image),
        Err(e) => Err(stop_of_image(e)),
    }
}
