// From object files to an image.
ghost use Rattle.std.specs.Prelude.{◌≡◌, IfOk, IfErr, OnOk};
ghost use Rattle.om_words.specs.Sentences.{texts};
ghost use Rattle.om_command.specs.Links.{HoldsLink};
ghost use Rattle.om_command.specs.LinkAnswers.{HasLinked, IsLinkCause, LinkAnswers};
ghost use Rattle.om_command.specs.Programs.{AreNoProgram};
ghost use Rattle.om_command.specs.World.{Stream, files_of, stream, world};

use crate::link_stop::{LinkStop, report_link};
use crate::loading::{MOST_OBJECTS, load_objects};
use crate::no_program::NoProgram;
use om_alpha::Level;
use om_io::{Failed, Sink, Store};
use om_link::{LinkErr, Linked, link};
use om_resolve::ResolveErr;
use std::alloc::Global;

/// Loads the files in the order in which the words name them, and links their objects at a level.
pub(crate) fn load_link<S: Store>(
    alloc: Global,
    level: Level,
    names: &[String],
    store: &mut S,
) -> Result<Linked, NoProgram>
    ensures holds { IfOk result (λ l. HoldsLink level (texts names.now)
        (files_of (S.tells store.old) (S.file store.old) (S.failed_loads store.old) (S.failed_saves store.old)
        (S.last_failed store.old) (S.loads_asked store.old) (S.saves_asked store.old))
        (files_of (S.tells store.new) (S.file store.new) (S.failed_loads store.new) (S.failed_saves store.new)
        (S.last_failed store.new) (S.loads_asked store.new) (S.saves_asked store.new)) l) }
    ensures none { IfErr result (λ cause. AreNoProgram (texts names.now) cause
        (files_of (S.tells store.old) (S.file store.old) (S.failed_loads store.old) (S.failed_saves store.old)
        (S.last_failed store.old) (S.loads_asked store.old) (S.saves_asked store.old))
        (files_of (S.tells store.new) (S.file store.new) (S.failed_loads store.new) (S.failed_saves store.new)
        (S.last_failed store.new) (S.loads_asked store.new) (S.saves_asked store.new))) }
{
    let objects = match load_objects(alloc, names, store) {
        Ok(objects) => objects,
        Err(refused) => return Err(NoProgram::File(refused)),
    };
    if objects.as_slice().len() > MOST_OBJECTS {
        return Err(NoProgram::Objects(ResolveErr::NoMemory));
    }
    match link(alloc, objects.as_slice(), level) {
        Ok(linked) => Ok(linked),
        Err(LinkErr::Resolve(cause)) => Err(NoProgram::Objects(cause)),
        Err(LinkErr::NoMemory) => Err(NoProgram::Objects(ResolveErr::NoMemory)),
    }
}

// Links files, and saves the image under `out`.
fn save_link<S: Store>(
    alloc: Global,
    level: Level,
    out: &str,
    names: &[String],
    store: &mut S,
) -> Result<(), LinkStop>
    ensures done { OnOk result (HasLinked level out.now (texts names.now)
        (files_of (S.tells store.old) (S.file store.old) (S.failed_loads store.old) (S.failed_saves store.old)
        (S.last_failed store.old) (S.loads_asked store.old) (S.saves_asked store.old))
        (files_of (S.tells store.new) (S.file store.new) (S.failed_loads store.new) (S.failed_saves store.new)
        (S.last_failed store.new) (S.loads_asked store.new) (S.saves_asked store.new))) }
    ensures stopped { IfErr result (λ stop. IsLinkCause level stop out.now (texts names.now)
        (files_of (S.tells store.old) (S.file store.old) (S.failed_loads store.old) (S.failed_saves store.old)
        (S.last_failed store.old) (S.loads_asked store.old) (S.saves_asked store.old))
        (files_of (S.tells store.new) (S.file store.new) (S.failed_loads store.new) (S.failed_saves store.new)
        (S.last_failed store.new) (S.loads_asked store.new) (S.saves_asked store.new))) }
{
    let linked = match load_link(alloc, level, names, store) {
        Ok(linked) => linked,
        Err(cause) => return Err(LinkStop::NoProgram(cause)),
    };
    match store.save(out, linked.bytes.as_slice()) {
        Ok(()) => Ok(()),
        Err(Failed) => Err(LinkStop::WriteFault),
    }
}

/// Links files at a level, saves the image under `out`, and answers the status; what is wrong is said on the error
/// stream. Asks for one load of each file, and for one save where there is an image.
pub(crate) fn link_files<S: Store, E: Sink>(
    alloc: Global,
    level: Level,
    out: &str,
    names: &[String],
    store: &mut S,
    err: &mut E,
) -> u8
    ensures { (input sink : Stream) → LinkAnswers level out.now (texts names.now)
        (world (files_of (S.tells store.old) (S.file store.old) (S.failed_loads store.old) (S.failed_saves store.old)
        (S.last_failed store.old) (S.loads_asked store.old) (S.saves_asked store.old)) input sink
        (stream (E.written err.old) (E.faults err.old)))
        (world (files_of (S.tells store.new) (S.file store.new) (S.failed_loads store.new) (S.failed_saves store.new)
        (S.last_failed store.new) (S.loads_asked store.new) (S.saves_asked store.new)) input sink
        (stream (E.written err.new) (E.faults err.new))) result }
{
    match save_link(alloc, level, out, names, store) {
        Ok(()) => 0,
        Err(stop) => report_link(err, names, &stop),
    }
}
