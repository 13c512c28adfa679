// Why a run of an image stops, its status and its line.
ghost use Rattle.std.specs.Prelude.{◌≡◌, ◌≢◌, ◌++◌, true, false, codes, decimal};
ghost use Rattle.om_command.specs.RunStops.{kind_name as name_of_kind, trap_line, run_status, run_line, RunTold};
ghost use Rattle.om_command.specs.Telling.{Adds, IsTold};
ghost use Rattle.om_command.specs.World.{stream};

use crate::lines::{Piece, put_line};
use om_alpha::TrapKind;
use om_io::{Failed, Sink};

/// Why a run of an image stops.
#[derive(Clone, Copy, Debug, PartialEq, Eq)]
pub enum RunStop {
    /// The input failed.
    ReadFault,
    /// A sink failed.
    WriteFault,
    /// Memory ran out before the run.
    NoMemory,
    /// The run exited with this status.
    Exit(u8),
    /// The run trapped at this address.
    Trap { kind: TrapKind, at: u64 },
    /// So many steps were taken without an end.
    Steps(u64),
}

/// The name of a kind of trap.
pub(crate) fn kind_name(kind: TrapKind) -> &'static [u8]
    ensures { result.now ≡ name_of_kind kind }
{
    match kind {
        TrapKind::Halt => b"halt",
        TrapKind::Unaligned => b"unaligned",
        TrapKind::Access => b"access",
        TrapKind::Overflow => b"overflow",
    }
}

// The status of the command.
fn status_for(stop: RunStop) -> u8
    ensures { result ≡ run_status stop }
{
    match stop {
        RunStop::Exit(_) => 1,
        RunStop::Trap { kind: _, at: _ } => 4,
        RunStop::Steps(_) => 5,
        RunStop::ReadFault => 6,
        RunStop::WriteFault => 7,
        RunStop::NoMemory => 8,
    }
}

fn put_trap<E: Sink>(err: &mut E, kind: TrapKind, at: u64) -> Result<(), Failed>
    ensures { Adds (trap_line kind at)
        (E.written err.old) (E.faults err.old) (E.written err.new) (E.faults err.new) result }
{
    put_line(
        err,
        &[
            Piece::Text(b"trap "),
            Piece::Text(kind_name(kind)),
            Piece::Text(b" "),
            Piece::Address(at),
            Piece::Text(b"\n"),
        ],
    )
}

// A line that ends in a number.
fn put_counted<E: Sink>(err: &mut E, what: &[u8], n: u64) -> Result<(), Failed>
    ensures { Adds (what.now ++ decimal n ++ codes "\n")
        (E.written err.old) (E.faults err.old) (E.written err.new) (E.faults err.new) result }
{
    put_line(
        err,
        &[Piece::Text(what), Piece::Number(n), Piece::Text(b"\n")],
    )
}

fn put_stop<E: Sink>(err: &mut E, stop: RunStop) -> Result<(), Failed>
    ensures { Adds (run_line stop)
        (E.written err.old) (E.faults err.old) (E.written err.new) (E.faults err.new) result }
{
    match stop {
        RunStop::ReadFault => put_line(err, &[Piece::Text(b"read fault\n")]),
        RunStop::WriteFault => put_line(err, &[Piece::Text(b"write fault\n")]),
        RunStop::NoMemory => put_line(err, &[Piece::Text(b"no memory\n")]),
        RunStop::Exit(status) => put_counted(err, b"exit ", u64::from(status)),
        RunStop::Trap { kind, at } => put_trap(err, kind, at),
        RunStop::Steps(n) => put_counted(err, b"steps ", n),
    }
}

fn tell_stop<E: Sink>(err: &mut E, stop: RunStop) -> u8
    ensures { IsTold (run_status stop) (run_line stop) result
        (E.written err.old) (E.faults err.old) (E.written err.new) (E.faults err.new) }
{
    match put_stop(err, stop) {
        Ok(()) => status_for(stop),
        Err(Failed) => 7,
    }
}

// Whether a run exited with 0.
fn is_silent(stop: RunStop) -> bool
    ensures yes { result ≡ true → stop ≡ RunStop.Exit 0 }
    ensures no { result ≡ false → stop ≢ RunStop.Exit 0 }
{
    match stop {
        RunStop::Exit(status) => status == 0,
        _ => false,
    }
}

/// Says on the error stream why a run stops, and answers the status: 7 where the put failed. A run that exits with 0 says
/// nothing.
pub(crate) fn report_run<E: Sink>(err: &mut E, stop: RunStop) -> u8
    ensures { RunTold stop result
        (stream (E.written err.old) (E.faults err.old)) (stream (E.written err.new) (E.faults err.new)) }
{
    if is_silent(stop) {
        return 0;
    }
    tell_stop(err, stop)
}
