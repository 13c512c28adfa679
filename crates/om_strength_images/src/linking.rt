// A caller of the link.
ghost use Rattle.std.specs.Prelude.{◌≡◌, ◌<◌, ◌^◌, None, Some, Err, length, IfOk};
ghost use Rattle.om_image.specs.Written.{file_of};
ghost use Rattle.om_link.specs.declared.linking.LinkErr.TheVariants.{Resolve};
ghost use Rattle.om_resolve.specs.Causes.{first_cause};
ghost use Rattle.om_resolve.specs.declared.causes.ResolveErr.{ResolveErr};

use om_alpha::Level;
use om_link::{LinkErr, Linked, link};
use om_object::Object;
use std::alloc::Global;

pub fn linked(alloc: Global, objects: &[Object], level: Level) -> Result<Linked, LinkErr>
    requires objects { length objects.now < 2 ^ 32 }
    requires level { level ≡ Level.Plain }
    ensures uncaused { IfOk result (λ l. first_cause objects.now ≡ None) }
    ensures bytes { IfOk result (λ l. l.bytes ≡ file_of l.image) }
    ensures cause { (cause : ResolveErr) → result ≡ Err (Resolve cause) → first_cause objects.now ≡ Some cause }
{
    link(alloc, objects, level)
}
