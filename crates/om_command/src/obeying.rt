// Doing what a sentence asks for.
ghost use Rattle.std.specs.Prelude.{◌≡◌};
ghost use Rattle.om_words.specs.Meaning.{told};
ghost use Rattle.om_command.specs.Answers.{MeaningAnswers};
ghost use Rattle.om_command.specs.World.{files_of, stream, world};

use crate::executing::exec;
use crate::linking::link_files;
use crate::listing::list_image;
use crate::report::report_not_yet;
use crate::running::run;
use crate::simulating::sim;
use om_io::{Sink, Source, Store};
use om_words::Command;
use std::alloc::Global;

/// Does what a command asks for, and answers the status.
pub(crate) fn obey<S: Store, I: Source, O: Sink, E: Sink>(
    alloc: Global,
    command: &Command,
    store: &mut S,
    input: &mut I,
    out: &mut O,
    err: &mut E,
) -> u8
    ensures { MeaningAnswers (told command.now)
        (world (files_of (S.tells store.old) (S.file store.old) (S.failed_loads store.old) (S.failed_saves store.old)
        (S.last_failed store.old) (S.loads_asked store.old) (S.saves_asked store.old)) (stream (I.left input.old) (I.faults input.old))
        (stream (O.written out.old) (O.faults out.old)) (stream (E.written err.old) (E.faults err.old)))
        (world (files_of (S.tells store.new) (S.file store.new) (S.failed_loads store.new) (S.failed_saves store.new)
        (S.last_failed store.new) (S.loads_asked store.new) (S.saves_asked store.new)) (stream (I.left input.new) (I.faults input.new))
        (stream (O.written out.new) (O.faults out.new)) (stream (E.written err.new) (E.faults err.new))) result }
{
    match command {
        Command::Link {
            level,
            out: name,
            files,
        } => link_files(alloc, *level, name.as_str(), files.as_slice(), store, err),
        Command::Exec {
            level,
            steps,
            files,
        } => exec(
            alloc,
            *level,
            *steps,
            files.as_slice(),
            store,
            input,
            out,
            err,
        ),
        Command::Run { steps, image } => run(alloc, *steps, image.as_str(), store, input, out, err),
        Command::Sim { steps, files } => {
            sim(alloc, *steps, files.as_slice(), store, input, out, err)
        }
        Command::List { image } => list_image(alloc, image.as_str(), store, out, err),
        _ => report_not_yet(err),
    }
}
