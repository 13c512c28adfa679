// A caller of the listing.
ghost use Rattle.std.specs.Prelude.{◌≡◌, ℕ, List, Some};
ghost use Rattle.om_io.specs.Causes.{HasCause};
ghost use Rattle.om_io.specs.Outside.{Appends};
ghost use Rattle.om_image.specs.Valid.{IsValidImage};
ghost use Rattle.om_listing.specs.Listing.{listing};

use om_image::Image;
use om_io::{Failed, Sink};
use om_listing::list;

pub fn listed<S: Sink>(i: &Image, out: &mut S) -> Result<(), Failed>
    requires { IsValidImage i.now }
    ensures appends { (old : List ℕ) → S.written out.old ≡ Some old → Appends old (S.written out.new) (listing i.now) result }
    ensures cause { HasCause (S.faults out.old) (S.faults out.new) result }
{
    list(i, out)
}
