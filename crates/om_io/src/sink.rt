// Where output goes.
ghost use Rattle.std.specs.Prelude.{◌≡◌, ℕ, List, Option, Some};
ghost use Rattle.om_io.specs.Causes.{HasCause};
ghost use Rattle.om_io.specs.Outside.{Appends};

use crate::Failed;

/// Where output goes.
///
/// A sink may tell what was written. One that does not, as the standard output, is covered by the
/// clauses on counts alone.
pub trait Sink {
    /// What was written, where the sink tells.
    ghost written: { Self → Option (List ℕ) };

    /// How often the sink has failed. It changes only where a put fails, never falls, and stands still at the
    /// last value of a u64.
    ghost faults: { Self → ℕ };

    /// Writes the bytes behind those that were written. It takes no memory.
    ///
    /// `Failed` comes only where the count of faults rose, and then a front of the bytes was written.
    fn put(&mut self, bytes: &[u8]) -> Result<(), Failed>
        ensures appends { (old : List ℕ) → written self.old ≡ Some old → Appends old (written self.new) bytes.now result }
        ensures cause { HasCause (faults self.old) (faults self.new) result };
}
