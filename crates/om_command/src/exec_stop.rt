// Why a run of linked files stops, its status and its line.
ghost use Rattle.std.specs.Prelude.{◌≡◌};
ghost use Rattle.om_words.specs.Sentences.{texts};
ghost use Rattle.om_command.specs.ExecAnswers.{ExecTold};
ghost use Rattle.om_command.specs.World.{stream};

use crate::no_program::{NoProgram, report_no_program};
use crate::run_stop::{RunStop, report_run};
use om_io::Sink;

/// Why a run of linked files stops, or why there is none.
#[derive(Drop, Debug)]
pub enum ExecStop {
    /// The files are no program, or memory ran out before there was an image.
    NoProgram(NoProgram),
    /// The image's run stopped.
    Run(RunStop),
}

/// Says on the error stream why a run of these files stops, and answers the status: 7 where the put failed. A run that exits
/// with 0 says nothing.
pub(crate) fn report_exec<E: Sink>(err: &mut E, names: &[String], stop: &ExecStop) -> u8
    ensures { ExecTold stop.now (texts names.now) result
        (stream (E.written err.old) (E.faults err.old)) (stream (E.written err.new) (E.faults err.new)) }
{
    match stop {
        ExecStop::NoProgram(cause) => report_no_program(err, names, cause),
        ExecStop::Run(stop) => report_run(err, *stop),
    }
}
