// Why an image was not read, the status and the line.
ghost use Rattle.std.specs.Prelude.{◌≡◌, ◌++◌, codes, decimal};
ghost use Rattle.om_command.specs.ImageStops.{broken_line, image_status, image_line};
ghost use Rattle.om_command.specs.Telling.{Adds, IsTold};

use crate::lines::{Piece, put_line};
use om_io::{Failed, Sink};

/// Why no image was read.
#[derive(Clone, Copy, Debug, PartialEq, Eq)]
pub enum ImageStop {
    /// There is no file of that name.
    Missing,
    /// The file has more bytes than a call may read.
    TooLong,
    /// The rule of images with this number is broken at this place, a byte offset in the file.
    Rule { rule: u8, at: u64 },
    /// The store's load failed.
    ReadFault,
    /// Memory ran out.
    NoMemory,
}

// The status of the command.
fn status_for(stop: ImageStop) -> u8
    ensures { result ≡ image_status stop }
{
    match stop {
        ImageStop::Missing => 3,
        ImageStop::ReadFault => 6,
        ImageStop::NoMemory => 8,
        ImageStop::TooLong | ImageStop::Rule { rule: _, at: _ } => 9,
    }
}

fn put_rule<E: Sink>(err: &mut E, rule: u8, at: u64) -> Result<(), Failed>
    ensures { Adds (broken_line rule at)
        (E.written err.old) (E.faults err.old) (E.written err.new) (E.faults err.new) result }
{
    put_line(
        err,
        &[
            Piece::Text(b"image rule "),
            Piece::Number(u64::from(rule)),
            Piece::Text(b" at "),
            Piece::Number(at),
            Piece::Text(b"\n"),
        ],
    )
}

fn put_missing<E: Sink>(err: &mut E, image: &str) -> Result<(), Failed>
    ensures { Adds (image_line ImageStop.Missing image.now)
        (E.written err.old) (E.faults err.old) (E.written err.new) (E.faults err.new) result }
{
    put_line(
        err,
        &[
            Piece::Text(b"missing "),
            Piece::Text(image.as_bytes()),
            Piece::Text(b"\n"),
        ],
    )
}

fn put_stop<E: Sink>(err: &mut E, image: &str, stop: ImageStop) -> Result<(), Failed>
    ensures { Adds (image_line stop image.now)
        (E.written err.old) (E.faults err.old) (E.written err.new) (E.faults err.new) result }
{
    match stop {
        ImageStop::Missing => put_missing(err, image),
        ImageStop::TooLong => put_line(err, &[Piece::Text(b"image too long\n")]),
        ImageStop::Rule { rule, at } => put_rule(err, rule, at),
        ImageStop::ReadFault => put_line(err, &[Piece::Text(b"read fault\n")]),
        ImageStop::NoMemory => put_line(err, &[Piece::Text(b"no memory\n")]),
    }
}

/// Says on the error stream why the image of this name was not read, and answers the status: 7 where the put failed.
pub(crate) fn report_unread<E: Sink>(err: &mut E, image: &str, stop: ImageStop) -> u8
    ensures { IsTold (image_status stop) (image_line stop image.now) result
        (E.written err.old) (E.faults err.old) (E.written err.new) (E.faults err.new) }
{
    match put_stop(err, image, stop) {
        Ok(()) => status_for(stop),
        Err(Failed) => 7,
    }
}
