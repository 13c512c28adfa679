// Files by name.
ghost use Rattle.std.specs.Prelude.{◌≡◌, ◌≢◌, ◌≤◌, ◌<◌, ℕ, List, length, Bool, Option, Some, None, IsTrue, IsErrOf, IfOk, OnOk};
ghost use Rattle.om_io.specs.Causes.{HasCause, Rose, raised};

use crate::{Bytes, Failed};
use std::alloc::{AllocError, AllocFailed, Global};

/// Why a file was not loaded.
#[derive(Clone, Copy, Debug, PartialEq, Eq)]
pub enum LoadErr {
    /// The outside failed: the store's count of failed loads has risen.
    Failed,
    /// There is no file of that name.
    Missing,
    /// The file has more bytes than were allowed.
    TooLong,
    /// Memory ran out.
    NoMemory,
}

impl From<AllocError> for LoadErr {
    ghost use Rattle.om_io.specs.declared.store.LoadErr.TheVariants.{NoMemory};

    ghost from_gives = { λ _ e. e ≡ NoMemory };

    fn from(_: AllocError) -> Self {
        LoadErr::NoMemory
    }
}

impl<T: Drop> From<AllocFailed<T>> for LoadErr {
    ghost use Rattle.om_io.specs.declared.store.LoadErr.TheVariants.{NoMemory};

    ghost from_gives = { λ _ e. e ≡ NoMemory };

    fn from(_: AllocFailed<T>) -> Self {
        LoadErr::NoMemory
    }
}

/// Files by name.
///
/// A store may tell what its files hold. One that does not, as a folder, is covered by the clauses
/// on counts alone.
pub trait Store {
    /// Whether the store tells what its files hold. This never changes.
    ghost tells: { Self → Bool };

    /// What a file holds, if there is one of that name. It means something where the store tells.
    ghost file: { Self → List ℕ → Option (List ℕ) };

    /// How many loads failed. It changes only where a load answers `Failed`, never falls, and stands still at
    /// the last value of a u64.
    ghost failed_loads: { Self → ℕ };

    /// How many saves failed. It changes only where a save fails, never falls, and stands still at the last
    /// value of a u64.
    ghost failed_saves: { Self → ℕ };

    /// The name of the last load that failed. It changes only where a load answers `Failed`.
    ghost last_failed: { Self → Option (List ℕ) };

    /// How many loads were asked for. It changes only at a load, and stands still at the last value of a u64.
    ghost loads_asked: { Self → ℕ };

    /// How many saves were asked for. It changes only at a save, and stands still at the last value of a u64.
    ghost saves_asked: { Self → ℕ };

    /// The bytes of a file, of which there are to be no more than `max`.
    ///
    /// Over a store that tells, `Missing` comes only where there is no such file, and `TooLong` only
    /// where it has more than `max` bytes. Since `Ok` gives the bytes of the file, one of the two comes
    /// wherever its cause stands, but for `Failed` and `NoMemory`. `Failed` comes only where the count
    /// of failed loads rose. The other answers raise no count of failures, and no answer changes a file.
    fn load(&mut self, alloc: Global, name: &str, max: u64) -> Result<Bytes, LoadErr>
        ensures short { IfOk result (λ bytes. length bytes ≤ max) }
        ensures found { IsTrue (tells self.old) → IfOk result (λ bytes. file self.old name.now ≡ Some bytes) }
        ensures missing { IsTrue (tells self.old) → IsErrOf result LoadErr.Missing → file self.old name.now ≡ None }
        ensures too_long { IsTrue (tells self.old) → IsErrOf result LoadErr.TooLong
            → (bytes : List ℕ) × (file self.old name.now ≡ Some bytes) × (max < length bytes) }

        ensures tells { tells self.new ≡ tells self.old }
        ensures same { (other : List ℕ) → file self.new other ≡ file self.old other }

        ensures loads { loads_asked self.new ≡ raised (loads_asked self.old) }
        ensures saves { saves_asked self.new ≡ saves_asked self.old }
        ensures failed { IsErrOf result LoadErr.Failed → Rose (failed_loads self.old) (failed_loads self.new) }
        ensures whose { IsErrOf result LoadErr.Failed → last_failed self.new ≡ Some name.now }
        ensures unfailed { result ≢ Err LoadErr.Failed → failed_loads self.new ≡ failed_loads self.old }
        ensures last { result ≢ Err LoadErr.Failed → last_failed self.new ≡ last_failed self.old }
        ensures later { failed_loads self.old ≤ failed_loads self.new }
        ensures no_save { failed_saves self.new ≡ failed_saves self.old };

    /// Makes the file of this name hold these bytes, in place of any that it held. It takes no memory.
    ///
    /// `Failed` comes only where the count of failed saves rose, and then the file of this name may
    /// hold anything. All other files are as before, whatever the answer.
    fn save(&mut self, name: &str, bytes: &[u8]) -> Result<(), Failed>
        ensures saved { IsTrue (tells self.old) → OnOk result (file self.new name.now ≡ Some bytes.now) }
        ensures others { (other : List ℕ) → other ≢ name.now → file self.new other ≡ file self.old other }
        ensures tells { tells self.new ≡ tells self.old }

        ensures saves { saves_asked self.new ≡ raised (saves_asked self.old) }
        ensures loads { loads_asked self.new ≡ loads_asked self.old }
        ensures cause { HasCause (failed_saves self.old) (failed_saves self.new) result }
        ensures last { last_failed self.new ≡ last_failed self.old }
        ensures no_load { failed_loads self.new ≡ failed_loads self.old };
}
