// Lines on the error stream, and statuses.
ghost use Rattle.std.specs.Prelude.{◌≡◌, codes};
ghost use Rattle.om_command.specs.Telling.{Adds, IsTold, usage_line};

use crate::lines::{Piece, put_line};
use om_io::{Failed, Sink};

fn put_usage<E: Sink>(err: &mut E, place: u64) -> Result<(), Failed>
    ensures { Adds (usage_line place) (E.written err.old) (E.faults err.old) (E.written err.new) (E.faults err.new) result }
{
    put_line(
        err,
        &[
            Piece::Text(b"usage "),
            Piece::Number(place),
            Piece::Text(b"\n"),
        ],
    )
}

/// Says on the error stream at which place, from 1, the words are no sentence, and answers the status:
/// 7 where the put failed.
pub(crate) fn report_usage<E: Sink>(err: &mut E, place: u64) -> u8
    ensures { IsTold 2 (usage_line place) result
        (E.written err.old) (E.faults err.old) (E.written err.new) (E.faults err.new) }
{
    match put_usage(err, place) {
        Ok(()) => 2,
        Err(Failed) => 7,
    }
}

/// Says on the error stream that the command does not exist yet, and answers the status: 7 where the put failed.
pub(crate) fn report_not_yet<E: Sink>(err: &mut E) -> u8
    ensures { IsTold 2 (codes "not yet\n") result
        (E.written err.old) (E.faults err.old) (E.written err.new) (E.faults err.new) }
{
    match put_line(err, &[Piece::Text(b"not yet\n")]) {
        Ok(()) => 2,
        Err(Failed) => 7,
    }
}

/// Says on the error stream that a put or a save failed, and answers the status, which is 7 in any case.
pub(crate) fn report_write_fault<E: Sink>(err: &mut E) -> u8
    ensures { IsTold 7 (codes "write fault\n") result
        (E.written err.old) (E.faults err.old) (E.written err.new) (E.faults err.new) }
{
    match put_line(err, &[Piece::Text(b"write fault\n")]) {
        Ok(()) | Err(Failed) => 7,
    }
}

/// Says on the error stream that memory ran out, and answers the status: 7 where the put failed.
pub fn report_no_memory<E: Sink>(err: &mut E) -> u8
    ensures { IsTold 8 (codes "no memory\n") result
        (E.written err.old) (E.faults err.old) (E.written err.new) (E.faults err.new) }
{
    match put_line(err, &[Piece::Text(b"no memory\n")]) {
        Ok(()) => 8,
        Err(Failed) => 7,
    }
}
