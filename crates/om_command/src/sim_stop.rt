// Why a run of a program without addresses stops, its status and its line.
ghost use Rattle.std.specs.Prelude.{◌≡◌, ◌≢◌, ◌++◌, true, false, codes, decimal};
ghost use Rattle.om_words.specs.Sentences.{texts};
ghost use Rattle.om_command.specs.RunStops.{kind_name as name_of_kind};
ghost use Rattle.om_command.specs.SimStops.{place_line, sim_trap_line, sim_status, sim_line, SimTold};
ghost use Rattle.om_command.specs.Telling.{Adds, IsTold};
ghost use Rattle.om_command.specs.World.{stream};

use crate::lines::{Piece, put_line};
use crate::no_program::{NoProgram, put_no_program, status_of_no_program};
use crate::run_stop::kind_name;
use om_alpha::TrapKind;
use om_io::{Failed, Sink};
use om_value::Place;

/// Why a run of a program without addresses stops, or why there is none.
#[derive(Drop, Debug)]
pub enum SimStop {
    /// The files are no program.
    NoProgram(NoProgram),
    /// The input failed.
    ReadFault,
    /// A sink failed.
    WriteFault,
    /// Memory ran out.
    NoMemory,
    /// The run exited with this status.
    Exit(u8),
    /// The run trapped at this place.
    Trap { kind: TrapKind, at: Place },
    /// The run stands at this place, where the next step would show an address.
    Observes(Place),
    /// So many steps were taken without an end.
    Steps(u64),
}

// The status of the command.
fn status_for(stop: &SimStop) -> u8
    ensures { result ≡ sim_status stop.now }
{
    match stop {
        SimStop::NoProgram(cause) => status_of_no_program(cause),
        SimStop::Exit(_) => 1,
        SimStop::Trap { kind: _, at: _ } => 4,
        SimStop::Steps(_) => 5,
        SimStop::ReadFault => 6,
        SimStop::WriteFault => 7,
        SimStop::NoMemory => 8,
        SimStop::Observes(_) => 10,
    }
}

// A line that ends in a place: the object's number and the offset in its text.
fn put_place<E: Sink>(err: &mut E, what: &[u8], at: Place) -> Result<(), Failed>
    ensures { Adds (place_line what.now at)
        (E.written err.old) (E.faults err.old) (E.written err.new) (E.faults err.new) result }
{
    put_line(
        err,
        &[
            Piece::Text(what),
            Piece::Number(u64::from(at.obj)),
            Piece::Text(b" "),
            Piece::Offset(at.off),
            Piece::Text(b"\n"),
        ],
    )
}

fn put_trap<E: Sink>(err: &mut E, kind: TrapKind, at: Place) -> Result<(), Failed>
    ensures { Adds (sim_trap_line kind at)
        (E.written err.old) (E.faults err.old) (E.written err.new) (E.faults err.new) result }
{
    put_line(
        err,
        &[
            Piece::Text(b"trap "),
            Piece::Text(kind_name(kind)),
            Piece::Text(b" "),
            Piece::Number(u64::from(at.obj)),
            Piece::Text(b" "),
            Piece::Offset(at.off),
            Piece::Text(b"\n"),
        ],
    )
}

// A line that ends in a number.
fn put_counted<E: Sink>(err: &mut E, what: &[u8], n: u64) -> Result<(), Failed>
    ensures { Adds (what.now ++ decimal n ++ codes "\n")
        (E.written err.old) (E.faults err.old) (E.written err.new) (E.faults err.new) result }
{
    put_line(
        err,
        &[Piece::Text(what), Piece::Number(n), Piece::Text(b"\n")],
    )
}

fn put_stop<E: Sink>(err: &mut E, names: &[String], stop: &SimStop) -> Result<(), Failed>
    ensures { Adds (sim_line (texts names.now) stop.now)
        (E.written err.old) (E.faults err.old) (E.written err.new) (E.faults err.new) result }
{
    match stop {
        SimStop::NoProgram(cause) => put_no_program(err, names, cause),
        SimStop::ReadFault => put_line(err, &[Piece::Text(b"read fault\n")]),
        SimStop::WriteFault => put_line(err, &[Piece::Text(b"write fault\n")]),
        SimStop::NoMemory => put_line(err, &[Piece::Text(b"no memory\n")]),
        SimStop::Exit(status) => put_counted(err, b"exit ", u64::from(*status)),
        SimStop::Trap { kind, at } => put_trap(err, *kind, *at),
        SimStop::Observes(at) => put_place(err, b"observes ", *at),
        SimStop::Steps(n) => put_counted(err, b"steps ", *n),
    }
}

fn tell_stop<E: Sink>(err: &mut E, names: &[String], stop: &SimStop) -> u8
    ensures { IsTold (sim_status stop.now) (sim_line (texts names.now) stop.now) result
        (E.written err.old) (E.faults err.old) (E.written err.new) (E.faults err.new) }
{
    match put_stop(err, names, stop) {
        Ok(()) => status_for(stop),
        Err(Failed) => 7,
    }
}

// Whether a run exited with 0.
fn is_silent(stop: &SimStop) -> bool
    ensures yes { result ≡ true → stop.now ≡ SimStop.Exit 0 }
    ensures no { result ≡ false → stop.now ≢ SimStop.Exit 0 }
{
    match stop {
        SimStop::Exit(status) => *status == 0,
        _ => false,
    }
}

/// Says on the error stream why a run of the program of these files stops, and answers the status: 7 where the put failed.
/// A run that exits with 0 says nothing.
pub(crate) fn report_sim<E: Sink>(err: &mut E, names: &[String], stop: &SimStop) -> u8
    ensures { SimTold stop.now (texts names.now) result
        (stream (E.written err.old) (E.faults err.old)) (stream (E.written err.new) (E.faults err.new)) }
{
    if is_silent(stop) {
        return 0;
    }
    tell_stop(err, names, stop)
}
