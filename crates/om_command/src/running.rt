// Running images.
ghost use Rattle.std.specs.Prelude.{◌≡◌};
ghost use Rattle.om_image.specs.Valid.{IsValidImage};
ghost use Rattle.om_command.specs.RunAnswers.{IsRun, RunsImage, RunAnswers};
ghost use Rattle.om_command.specs.World.{files_of, stream, streams, world};

use crate::image_files::load_image;
use crate::image_stop::report_unread;
use crate::run_stop::{RunStop, report_run};
use om_image::Image;
use om_io::{NoMemory, Sink, Source, Store};
use om_machine::{Machine, Step};
use std::alloc::Global;

/// Runs an image for so many steps at most, with the streams as its descriptors 0, 1 and 2.
pub(crate) fn take_steps<I: Source, O: Sink, E: Sink>(
    alloc: Global,
    steps: u64,
    image: &Image,
    input: &mut I,
    out: &mut O,
    err: &mut E,
) -> RunStop
    requires { IsValidImage image.now }
    ensures { IsRun result image.now steps
        (streams (stream (I.left input.old) (I.faults input.old)) (stream (O.written out.old) (O.faults out.old))
        (stream (E.written err.old) (E.faults err.old)))
        (streams (stream (I.left input.new) (I.faults input.new)) (stream (O.written out.new) (O.faults out.new))
        (stream (E.written err.new) (E.faults err.new))) }
{
    let mut machine = match Machine::load(alloc, image) {
        Ok(machine) => machine,
        Err(NoMemory) => return RunStop::NoMemory,
    };
    match machine.run(steps, input, out, err) {
        Step::Went => RunStop::Steps(steps),
        Step::Exit(status) => RunStop::Exit(status),
        Step::Trap { kind, at } => RunStop::Trap { kind, at },
        Step::ReadFault => RunStop::ReadFault,
        Step::WriteFault => RunStop::WriteFault,
    }
}

/// Runs an image for so many steps at most, with the streams as its descriptors 0, 1 and 2, says on the error stream why it
/// stops, and answers the status.
pub(crate) fn run_image<I: Source, O: Sink, E: Sink>(
    alloc: Global,
    steps: u64,
    image: &Image,
    input: &mut I,
    out: &mut O,
    err: &mut E,
) -> u8
    requires { IsValidImage image.now }
    ensures { RunsImage image.now steps
        (streams (stream (I.left input.old) (I.faults input.old)) (stream (O.written out.old) (O.faults out.old))
        (stream (E.written err.old) (E.faults err.old)))
        (streams (stream (I.left input.new) (I.faults input.new)) (stream (O.written out.new) (O.faults out.new))
        (stream (E.written err.new) (E.faults err.new))) result }
{
    let stop = take_steps(alloc, steps, image, input, out, err);
    report_run(err, stop)
}

/// Loads an image and runs it, and answers the status.
pub(crate) fn run<S: Store, I: Source, O: Sink, E: Sink>(
    alloc: Global,
    steps: u64,
    name: &str,
    store: &mut S,
    input: &mut I,
    out: &mut O,
    err: &mut E,
) -> u8
    ensures { RunAnswers steps name.now
        (world (files_of (S.tells store.old) (S.file store.old) (S.failed_loads store.old) (S.failed_saves store.old)
        (S.last_failed store.old) (S.loads_asked store.old) (S.saves_asked store.old)) (stream (I.left input.old) (I.faults input.old))
        (stream (O.written out.old) (O.faults out.old)) (stream (E.written err.old) (E.faults err.old)))
        (world (files_of (S.tells store.new) (S.file store.new) (S.failed_loads store.new) (S.failed_saves store.new)
        (S.last_failed store.new) (S.loads_asked store.new) (S.saves_asked store.new)) (stream (I.left input.new) (I.faults input.new))
        (stream (O.written out.new) (O.faults out.new)) (stream (E.written err.new) (E.faults err.new))) result }
{
    match load_image(alloc, name, store) {
        Ok(image) => run_image(alloc, steps, &image, input, out, err),
        Err(stop) => report_unread(err, name, stop),
    }
}
