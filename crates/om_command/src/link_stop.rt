// Why a link stops, its status and its line.
ghost use Rattle.std.specs.Prelude.{◌≡◌};
ghost use Rattle.om_words.specs.Sentences.{texts};
ghost use Rattle.om_command.specs.LinkStops.{link_status, link_line};
ghost use Rattle.om_command.specs.Telling.{Adds, IsTold};

use crate::lines::{Piece, put_line};
use crate::no_program::{NoProgram, put_no_program, status_of_no_program};
use om_io::{Failed, Sink};

/// Why a link stops.
#[derive(Drop, Debug)]
pub enum LinkStop {
    /// The files are no program, or memory ran out.
    NoProgram(NoProgram),
    /// The store's save failed.
    WriteFault,
}

// The status of the command.
fn status_for(stop: &LinkStop) -> u8
    ensures { result ≡ link_status stop.now }
{
    match stop {
        LinkStop::NoProgram(cause) => status_of_no_program(cause),
        LinkStop::WriteFault => 7,
    }
}

fn put_stop<E: Sink>(err: &mut E, names: &[String], stop: &LinkStop) -> Result<(), Failed>
    ensures { Adds (link_line (texts names.now) stop.now)
        (E.written err.old) (E.faults err.old) (E.written err.new) (E.faults err.new) result }
{
    match stop {
        LinkStop::NoProgram(cause) => put_no_program(err, names, cause),
        LinkStop::WriteFault => put_line(err, &[Piece::Text(b"write fault\n")]),
    }
}

/// Says on the error stream why these files were not linked, and answers the status: 7 where the put failed.
pub(crate) fn report_link<E: Sink>(err: &mut E, names: &[String], stop: &LinkStop) -> u8
    ensures { IsTold (link_status stop.now) (link_line (texts names.now) stop.now) result
        (E.written err.old) (E.faults err.old) (E.written err.new) (E.faults err.new) }
{
    match put_stop(err, names, stop) {
        Ok(()) => status_for(stop),
        Err(Failed) => 7,
    }
}
