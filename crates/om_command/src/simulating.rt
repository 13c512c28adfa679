// Running the program of object files without addresses.
ghost use Rattle.std.specs.Prelude.{◌≡◌, List, IfOk, IfErr};
ghost use Rattle.om_words.specs.Sentences.{texts};
ghost use Rattle.om_command.specs.Programs.{HoldsProgram, AreNoProgram};
ghost use Rattle.om_command.specs.SimAnswers.{SimAnswers, IsSim, IsSimCause};
ghost use Rattle.om_command.specs.World.{files_of, stream, streams, world};

use crate::loading::{MOST_OBJECTS, load_objects};
use crate::no_program::NoProgram;
use crate::sim_stop::{SimStop, report_sim};
use om_io::{NoMemory, Sink, Source, Store};
use om_prog::Program;
use om_resolve::{ResolveErr, resolve};
use om_symrun::{SymRun, SymStep};
use std::alloc::Global;

/// Loads the program of object files.
pub(crate) fn load_program<S: Store>(
    alloc: Global,
    names: &[String],
    store: &mut S,
) -> Result<Program, NoProgram>
    ensures holds { IfOk result (λ p. HoldsProgram (texts names.now)
        (files_of (S.tells store.old) (S.file store.old) (S.failed_loads store.old) (S.failed_saves store.old)
        (S.last_failed store.old) (S.loads_asked store.old) (S.saves_asked store.old))
        (files_of (S.tells store.new) (S.file store.new) (S.failed_loads store.new) (S.failed_saves store.new)
        (S.last_failed store.new) (S.loads_asked store.new) (S.saves_asked store.new)) p) }
    ensures none { IfErr result (λ cause. AreNoProgram (texts names.now) cause
        (files_of (S.tells store.old) (S.file store.old) (S.failed_loads store.old) (S.failed_saves store.old)
        (S.last_failed store.old) (S.loads_asked store.old) (S.saves_asked store.old))
        (files_of (S.tells store.new) (S.file store.new) (S.failed_loads store.new) (S.failed_saves store.new)
        (S.last_failed store.new) (S.loads_asked store.new) (S.saves_asked store.new))) }
{
    let objects = match load_objects(alloc, names, store) {
        Ok(objects) => objects,
        Err(refused) => return Err(NoProgram::File(refused)),
    };
    if objects.as_slice().len() > MOST_OBJECTS {
        return Err(NoProgram::Objects(ResolveErr::NoMemory));
    }
    match resolve(alloc, objects.as_slice()) {
        Ok(program) => Ok(program),
        Err(cause) => Err(NoProgram::Objects(cause)),
    }
}

// Runs a program for so many steps at most.
fn sim_program<I: Source, O: Sink, E: Sink>(
    alloc: Global,
    steps: u64,
    program: &Program,
    input: &mut I,
    out: &mut O,
    err: &mut E,
) -> SimStop
    ensures { IsSim result program.now steps
        (streams (stream (I.left input.old) (I.faults input.old)) (stream (O.written out.old) (O.faults out.old))
        (stream (E.written err.old) (E.faults err.old)))
        (streams (stream (I.left input.new) (I.faults input.new)) (stream (O.written out.new) (O.faults out.new))
        (stream (E.written err.new) (E.faults err.new))) }
{
    let mut machine = match SymRun::new(alloc, program) {
        Ok(machine) => machine,
        Err(NoMemory) => return SimStop::NoMemory,
    };
    match machine.run(steps, input, out, err) {
        SymStep::Went => SimStop::Steps(steps),
        SymStep::Exit(status) => SimStop::Exit(status),
        SymStep::Trap { kind, at } => SimStop::Trap { kind, at },
        SymStep::Observes(at) => SimStop::Observes(at),
        SymStep::ReadFault => SimStop::ReadFault,
        SymStep::WriteFault => SimStop::WriteFault,
        SymStep::NoMemory => SimStop::NoMemory,
    }
}

// Loads a program and runs it.
fn simulate<S: Store, I: Source, O: Sink, E: Sink>(
    alloc: Global,
    steps: u64,
    names: &[String],
    store: &mut S,
    input: &mut I,
    out: &mut O,
    err: &mut E,
) -> SimStop
    ensures { IsSimCause result (texts names.now) steps
        (world (files_of (S.tells store.old) (S.file store.old) (S.failed_loads store.old) (S.failed_saves store.old)
        (S.last_failed store.old) (S.loads_asked store.old) (S.saves_asked store.old)) (stream (I.left input.old) (I.faults input.old))
        (stream (O.written out.old) (O.faults out.old)) (stream (E.written err.old) (E.faults err.old)))
        (world (files_of (S.tells store.new) (S.file store.new) (S.failed_loads store.new) (S.failed_saves store.new)
        (S.last_failed store.new) (S.loads_asked store.new) (S.saves_asked store.new)) (stream (I.left input.new) (I.faults input.new))
        (stream (O.written out.new) (O.faults out.new)) (stream (E.written err.new) (E.faults err.new))) }
{
    match load_program(alloc, names, store) {
        Ok(program) => sim_program(alloc, steps, &program, input, out, err),
        Err(cause) => SimStop::NoProgram(cause),
    }
}

/// Runs the program of object files without addresses for so many steps at most, with the streams as its descriptors 0, 1
/// and 2, says on the error stream why it stops, and answers the status.
pub(crate) fn sim<S: Store, I: Source, O: Sink, E: Sink>(
    alloc: Global,
    steps: u64,
    names: &[String],
    store: &mut S,
    input: &mut I,
    out: &mut O,
    err: &mut E,
) -> u8
    ensures { SimAnswers steps (texts names.now)
        (world (files_of (S.tells store.old) (S.file store.old) (S.failed_loads store.old) (S.failed_saves store.old)
        (S.last_failed store.old) (S.loads_asked store.old) (S.saves_asked store.old)) (stream (I.left input.old) (I.faults input.old))
        (stream (O.written out.old) (O.faults out.old)) (stream (E.written err.old) (E.faults err.old)))
        (world (files_of (S.tells store.new) (S.file store.new) (S.failed_loads store.new) (S.failed_saves store.new)
        (S.last_failed store.new) (S.loads_asked store.new) (S.saves_asked store.new)) (stream (I.left input.new) (I.faults input.new))
        (stream (O.written out.new) (O.faults out.new)) (stream (E.written err.new) (E.faults err.new))) result }
{
    let stop = simulate(alloc, steps, names, store, input, out, err);
    report_sim(err, names, &stop)
}
