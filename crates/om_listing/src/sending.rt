// Pages that go to a sink.
ghost use Rattle.std.specs.Prelude.{◌≡◌, ◌≤◌, ◌+◌, [], length, OnOk};
ghost use Rattle.om_listing.specs.Sending.{Sends};

use crate::page::{LINE, Page, SIZE};
use om_io::{Failed, Sink};

/// Puts what waits.
pub(crate) fn send<S: Sink>(out: &mut S, page: &mut Page) -> Result<(), Failed>
    ensures sends { Sends [] (S.written out.old) (S.faults out.old) page.old (S.written out.new) (S.faults out.new) page.new result }
    ensures empty { OnOk result (page.new ≡ []) }
{
    out.put(page.as_slice())?;
    page.clear();
    Ok(())
}

/// Puts what waits where there is no room for a line behind it.
pub(crate) fn send_full<S: Sink>(out: &mut S, page: &mut Page) -> Result<(), Failed>
    ensures sends { Sends [] (S.written out.old) (S.faults out.old) page.old (S.written out.new) (S.faults out.new) page.new result }
    ensures room { OnOk result (length page.new + LINE ≤ SIZE) }
{
    if page.len() <= SIZE - LINE {
        return Ok(());
    }
    send(out, page)
}
