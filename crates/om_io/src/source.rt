// Where input comes from.
ghost use Rattle.std.specs.Prelude.{◌≡◌, ◌≤◌, ◌<◌, ℕ, List, [], length, Option, Some, IfOk};
ghost use Rattle.om_io.specs.Causes.{HasCause};
ghost use Rattle.om_io.specs.Outside.{Moves};

use crate::Failed;

/// Where input comes from.
///
/// A source may tell what is left to read. One that does not, as the standard input, is covered
/// by the clauses on counts alone.
pub trait Source {
    /// What is left to read, where the source tells.
    ghost left: { Self → Option (List ℕ) };

    /// How often the source has failed. It changes only where a read fails, never falls, and stands still at
    /// the last value of a u64.
    ghost faults: { Self → ℕ };

    /// Moves the next bytes into the front of `buf` and says how many.
    ///
    /// Zero bytes into a buffer that is not empty is the end of the input. `Failed` comes only where
    /// the count of faults rose, and then nothing was taken from what was left.
    fn read(&mut self, buf: &mut [u8]) -> Result<usize, Failed>
        ensures bound { IfOk result (λ count. count ≤ length buf.new) }
        ensures moves { (bytes : List ℕ) → left self.old ≡ Some bytes → Moves bytes (left self.new) buf.new result }
        ensures end { left self.old ≡ Some [] → IfOk result (λ count. count ≡ 0) }
        ensures not_end { (bytes : List ℕ) → left self.old ≡ Some bytes → 0 < length bytes → 0 < length buf.new
            → IfOk result (λ count. 0 < count) }
        ensures cause { HasCause (faults self.old) (faults self.new) result };
}
