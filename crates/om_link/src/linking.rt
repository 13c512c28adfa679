// From objects to an image.
ghost use Rattle.std.specs.Prelude.{◌≡◌, ◌<◌, ◌^◌, length, IfOk};
ghost use Rattle.om_layout.specs.Limits.{IsWithinLimits};
ghost use Rattle.om_prog.specs.Valid.{IsProgram};
ghost use Rattle.om_counted.specs.Levels.{IsImageAt};
ghost use Rattle.om_link.specs.Plain.{BranchesReach};
ghost use Rattle.om_link.specs.Links.{Links, link_err};

use crate::rounds::rounds;
use om_alpha::Level;
use om_encode::encode_image;
use om_gat::group;
use om_image::{Image, write_image};
use om_io::{Bytes, NoMemory};
use om_layout::lay;
use om_lift::lift_program;
use om_object::Object;
use om_prog::Program;
use om_resolve::{ResolveErr, resolve};
use std::alloc::Global;

/// A linked image.
#[derive(Drop, Debug)]
pub struct Linked {
    /// The image, with its map.
    pub image: Image,
    /// The bytes of its file.
    pub bytes: Bytes,
}

/// Why objects have no image.
#[derive(Drop, Debug)]
pub enum LinkErr {
    /// They are no program, for this cause, which is not want of memory.
    Resolve(ResolveErr),
    /// Memory ran out.
    NoMemory,
}

// The answer to objects that were no program for this cause.
fn unresolved(cause: ResolveErr) -> LinkErr
    ensures { result ≡ link_err cause }
{
    match cause {
        ResolveErr::NoMemory => LinkErr::NoMemory,
        cause => LinkErr::Resolve(cause),
    }
}

// The image of a program as it is.
fn plain_image(alloc: Global, program: &Program) -> Result<Image, NoMemory>
    requires program { IsProgram program.now }
    requires limits { IsWithinLimits program.now }
    requires reach { BranchesReach program.now }
    ensures { IfOk result (λ i. IsImageAt Level.Plain program.now i) }
{
    let graph = lift_program(alloc, program)?;
    let layout = lay(alloc, &graph, program)?;
    let image = encode_image(alloc, &graph, program, &layout)?;
    Ok(image)
}

// The image of a program in which nothing is left to rewrite.
fn full_image(alloc: Global, program: &Program) -> Result<Image, NoMemory>
    requires program { IsProgram program.now }
    requires limits { IsWithinLimits program.now }
    requires reach { BranchesReach program.now }
    ensures { IfOk result (λ i. IsImageAt Level.Full program.now i) }
{
    let mut graph = lift_program(alloc, program)?;
    group(alloc, &mut graph, Level::Full)?;
    let layout = rounds(alloc, &mut graph, program)?;
    let image = encode_image(alloc, &graph, program, &layout)?;
    Ok(image)
}

// The image of a program at a level.
fn image_of(alloc: Global, program: &Program, level: Level) -> Result<Image, NoMemory>
    requires program { IsProgram program.now }
    requires limits { IsWithinLimits program.now }
    requires reach { BranchesReach program.now }
    ensures { IfOk result (λ i. IsImageAt level program.now i) }
{
    match level {
        Level::Plain => plain_image(alloc, program),
        Level::Full => full_image(alloc, program),
    }
}

/// Links objects, which are numbered from 0 in their order, to one image. At the plain level each word stays as it was,
/// and each object has an address table of its own. At the full level objects share tables as far as these have room, and
/// the program is rewritten until no rule applies any more (see `IsThorough` of om_thorough).
///
/// The image runs as the objects' program does (see `linked_images_run`). `Resolve` comes exactly where the objects are no
/// program, with the first cause, as `resolve` answers it. `NoMemory` comes where memory runs out, and can take the place
/// of every other answer. At the plain level a link takes time near-linear in the symbols, relocations, words and fields.
pub fn link(alloc: Global, objects: &[Object], level: Level) -> Result<Linked, LinkErr>
    requires objects { length objects.now < 2 ^ 32 }
    ensures { Links level objects.now result }
{
    let program = match resolve(alloc, objects) {
        Ok(program) => program,
        Err(cause) => return Err(unresolved(cause)),
    };
    let image = match image_of(alloc, &program, level) {
        Ok(image) => image,
        Err(NoMemory) => return Err(LinkErr::NoMemory),
    };
    match write_image(alloc, &image) {
        Ok(bytes) => Ok(Linked { image, bytes }),
        Err(NoMemory) => Err(LinkErr::NoMemory),
    }
}
