// Linking object files and running their image.
ghost use Rattle.std.specs.Prelude.{◌≡◌};
ghost use Rattle.om_words.specs.Sentences.{texts};
ghost use Rattle.om_command.specs.ExecAnswers.{ExecAnswers, IsExecCause};
ghost use Rattle.om_command.specs.World.{files_of, stream, world};

use crate::exec_stop::{ExecStop, report_exec};
use crate::linking::load_link;
use crate::running::take_steps;
use om_alpha::Level;
use om_io::{Sink, Source, Store};
use std::alloc::Global;

// Links files at a level and runs their image.
fn execute<S: Store, I: Source, O: Sink, E: Sink>(
    alloc: Global,
    level: Level,
    steps: u64,
    names: &[String],
    store: &mut S,
    input: &mut I,
    out: &mut O,
    err: &mut E,
) -> ExecStop
    ensures { IsExecCause level result (texts names.now) steps
        (world (files_of (S.tells store.old) (S.file store.old) (S.failed_loads store.old) (S.failed_saves store.old)
        (S.last_failed store.old) (S.loads_asked store.old) (S.saves_asked store.old)) (stream (I.left input.old) (I.faults input.old))
        (stream (O.written out.old) (O.faults out.old)) (stream (E.written err.old) (E.faults err.old)))
        (world (files_of (S.tells store.new) (S.file store.new) (S.failed_loads store.new) (S.failed_saves store.new)
        (S.last_failed store.new) (S.loads_asked store.new) (S.saves_asked store.new)) (stream (I.left input.new) (I.faults input.new))
        (stream (O.written out.new) (O.faults out.new)) (stream (E.written err.new) (E.faults err.new))) }
{
    match load_link(alloc, level, names, store) {
        Ok(linked) => ExecStop::Run(take_steps(alloc, steps, &linked.image, input, out, err)),
        Err(cause) => ExecStop::NoProgram(cause),
    }
}

/// Links files at a level and runs their image for so many steps at most, with the streams as its descriptors 0, 1
/// and 2, says on the error stream why it stops, and answers the status.
pub(crate) fn exec<S: Store, I: Source, O: Sink, E: Sink>(
    alloc: Global,
    level: Level,
    steps: u64,
    names: &[String],
    store: &mut S,
    input: &mut I,
    out: &mut O,
    err: &mut E,
) -> u8
    ensures { ExecAnswers level steps (texts names.now)
        (world (files_of (S.tells store.old) (S.file store.old) (S.failed_loads store.old) (S.failed_saves store.old)
        (S.last_failed store.old) (S.loads_asked store.old) (S.saves_asked store.old)) (stream (I.left input.old) (I.faults input.old))
        (stream (O.written out.old) (O.faults out.old)) (stream (E.written err.old) (E.faults err.old)))
        (world (files_of (S.tells store.new) (S.file store.new) (S.failed_loads store.new) (S.failed_saves store.new)
        (S.last_failed store.new) (S.loads_asked store.new) (S.saves_asked store.new)) (stream (I.left input.new) (I.faults input.new))
        (stream (O.written out.new) (O.faults out.new)) (stream (E.written err.new) (E.faults err.new))) result }
{
    let stop = execute(alloc, level, steps, names, store, input, out, err);
    report_exec(err, names, &stop)
}
