// A caller of om_resolve.
ghost use Rattle.std.specs.Prelude.{◌<◌, ◌^◌, length};
ghost use Rattle.om_resolve.specs.Program.{Resolves};

use om_object::Object;
use om_prog::Program;
use om_resolve::{ResolveErr, resolve};
use std::alloc::Global;

/// The program of objects.
pub fn program(alloc: Global, objects: &[Object]) -> Result<Program, ResolveErr>
    requires { length objects.now < 2 ^ 32 }
    ensures { Resolves objects.now result }
{
    resolve(alloc, objects)
}
