// The listing of an image.
ghost use Rattle.std.specs.Prelude.{◌≡◌};
ghost use Rattle.om_image.specs.Valid.{IsValidImage};
ghost use Rattle.om_listing.specs.Listing.{listing as listing_of};
ghost use Rattle.om_command.specs.ListAnswers.{PutsOrFails, ListAnswers};
ghost use Rattle.om_command.specs.World.{Stream, files_of, stream, world};

use crate::image_files::load_image;
use crate::image_stop::report_unread;
use crate::report::report_write_fault;
use om_image::Image;
use om_io::{Failed, Sink, Store};
use om_listing::list;
use std::alloc::Global;

// Puts the listing of an image, and answers the status.
fn put_listing<O: Sink, E: Sink>(image: &Image, out: &mut O, err: &mut E) -> u8
    requires { IsValidImage image.now }
    ensures { PutsOrFails (listing_of image.now)
        (stream (O.written out.old) (O.faults out.old)) (stream (O.written out.new) (O.faults out.new))
        (stream (E.written err.old) (E.faults err.old)) (stream (E.written err.new) (E.faults err.new)) result }
{
    match list(image, out) {
        Ok(()) => 0,
        Err(Failed) => report_write_fault(err),
    }
}

/// Loads an image, puts its listing on `out`, and answers the status; what is wrong is said on the error stream.
pub(crate) fn list_image<S: Store, O: Sink, E: Sink>(
    alloc: Global,
    name: &str,
    store: &mut S,
    out: &mut O,
    err: &mut E,
) -> u8
    ensures { (input : Stream) → ListAnswers name.now
        (world (files_of (S.tells store.old) (S.file store.old) (S.failed_loads store.old) (S.failed_saves store.old)
        (S.last_failed store.old) (S.loads_asked store.old) (S.saves_asked store.old)) input
        (stream (O.written out.old) (O.faults out.old)) (stream (E.written err.old) (E.faults err.old)))
        (world (files_of (S.tells store.new) (S.file store.new) (S.failed_loads store.new) (S.failed_saves store.new)
        (S.last_failed store.new) (S.loads_asked store.new) (S.saves_asked store.new)) input
        (stream (O.written out.new) (O.faults out.new)) (stream (E.written err.new) (E.faults err.new))) result }
{
    match load_image(alloc, name, store) {
        Ok(image) => put_listing(&image, out, err),
        Err(stop) => report_unread(err, name, stop),
    }
}
