// All that the program does.
ghost use Rattle.om_words.specs.Sentences.{texts};
ghost use Rattle.om_command.specs.Answers.{Answers};
ghost use Rattle.om_command.specs.World.{files_of, stream, world};

use crate::obeying::obey;
use crate::report::{report_no_memory, report_usage};
use om_io::{Sink, Source, Store};
use om_words::{WordsErr, read_words};
use std::alloc::Global;

/// Does what the words say, and answers the status of the command.
///
/// The sentences are those of `om_words::read_words`; `link [-O0] -o OUT FILE ..`, `exec [-O0] [-n N] FILE ..`,
/// `run [-n N] IMAGE`, `sim [-n N] FILE ..` and `list IMAGE` are done so far. `link` links object files and saves under OUT an
/// image that runs as their program; `exec` links them and runs the image, `run` runs an image from a file, and `sim` the
/// program of object files without giving it addresses, with the streams as descriptors 0, 1 and 2; `list` puts on `out` a line
/// for each word of an image that is not as it was before the link, and totals. With `-O0` a link rewrites nothing, and its
/// image does step for step what the program does; without, it rewrites until no rule of rewriting applies, and its image may
/// need fewer steps. A command that is not built yet is answered with 2 and `not yet`.
///
/// A status other than 0 is told by one line on `err`, or a front of it, with status 7, where that cannot be put: 1 a run exited
/// with another status than 0, 2 the words are no sentence, or what they ask for is not built yet, 3 a file is not there or is
/// refused, or the files are no program, 4 a run trapped, 5 so many steps were taken without an end, 6 a load or the input
/// failed, 7 a save or a sink failed, 8 memory ran out, 9 the image is refused, 10 the next step of the program would show an
/// address.
pub fn om<S: Store, I: Source, O: Sink, E: Sink>(
    alloc: Global,
    words: &[String],
    store: &mut S,
    input: &mut I,
    out: &mut O,
    err: &mut E,
) -> u8
    ensures { Answers (texts words.now)
        (world (files_of (S.tells store.old) (S.file store.old) (S.failed_loads store.old) (S.failed_saves store.old)
        (S.last_failed store.old) (S.loads_asked store.old) (S.saves_asked store.old)) (stream (I.left input.old) (I.faults input.old))
        (stream (O.written out.old) (O.faults out.old)) (stream (E.written err.old) (E.faults err.old)))
        (world (files_of (S.tells store.new) (S.file store.new) (S.failed_loads store.new) (S.failed_saves store.new)
        (S.last_failed store.new) (S.loads_asked store.new) (S.saves_asked store.new)) (stream (I.left input.new) (I.faults input.new))
        (stream (O.written out.new) (O.faults out.new)) (stream (E.written err.new) (E.faults err.new))) result }
{
    match read_words(alloc, words) {
        Ok(command) => obey(alloc, &command, store, input, out, err),
        Err(WordsErr::Usage { at }) => report_usage(err, at),
        Err(WordsErr::NoMemory) => report_no_memory(err),
    }
}
