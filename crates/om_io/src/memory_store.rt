// A store in memory.
ghost use Rattle.std.specs.Prelude.{◌≡◌, ◌≢◌, ◌+◌, ◌≤◌, ◌<◌, ℕ, List, [], Some, None, true, false, IsTrue, IsErrOf, IfOk, IsOk, IsErr, OnOk, OnErr, length, option_copied, bytes_eq, if◌then◌else◌};
ghost use Rattle.om_io.specs.Causes.{HasCause, Rose, raised};
ghost use Rattle.om_io.specs.Failing.{after_call, is_due};
ghost use Rattle.om_io.specs.Files.{first_entry};
ghost use Rattle.om_io.specs.StoreCounts.{IsFresh, last_failed_in};

use crate::counts::Counts;
use crate::saves::Saves;
use crate::schedule::Schedule;
use crate::{Bytes, Failed, LoadErr, NoMemory, Store};
use std::alloc::Global;

/// Files in memory: those that were saved, and those from the start. It tells what they hold.
///
/// Loads and saves are counted together as its calls, of which those whose numbers, from 0, are in
/// `fails` are to fail.
#[derive(Drop)]
pub struct MemStore {
    files: Vec<(String, Bytes)>,
    saves: Saves,
    schedule: Schedule,
    counts: Counts,
}

// The bytes of the first entry of this name.
fn find_file<'a>(files: &'a [(String, Bytes)], name: &[u8]) -> Option<&'a [u8]>
    ensures { option_copied result ≡ first_entry files.now name.now }
{
    for entry in files {
        if entry.0.as_bytes() == name {
            return Some(entry.1.as_slice());
        }
    }
    None
}

impl MemStore {
    ghost use Rattle.om_io.specs.MemStore.{counts_of, file_of, kept_in, schedule_of};

    /// These files, of which the first of a name counts. It reserves `room` bytes for the names and
    /// bytes of all saves together, and places for eight saves.
    pub fn new(
        alloc: Global,
        files: Vec<(String, Bytes)>,
        room: u64,
        fails: Vec<u64>,
    ) -> Result<MemStore, NoMemory>
        ensures files { IfOk result (λ s. (name : List ℕ) → file_of s name ≡ first_entry files.items name) }
        ensures saved { IfOk result (λ s. (kept_in s).files ≡ []) }
        ensures room { IfOk result (λ s. (kept_in s).left ≡ room) }
        ensures fails { IfOk result (λ s. (schedule_of s).fails ≡ fails) }
        ensures calls { IfOk result (λ s. (schedule_of s).calls ≡ 0) }
        ensures counts { IfOk result (λ s. IsFresh (counts_of s)) }
    {
        Ok(MemStore {
            files,
            saves: Saves::new(alloc, room)?,
            schedule: Schedule::new(fails),
            counts: Counts::new(),
        })
    }

    /// What a file holds; none exactly where there is no file of that name.
    pub fn file(&self, name: &str) -> Option<&[u8]>
        ensures { option_copied result ≡ file_of self.now name.now }
    {
        match self.saves.find(name.as_bytes()) {
            Some(bytes) => Some(bytes),
            None => find_file(&self.files, name.as_bytes()),
        }
    }

    // A copy of a file that has no more bytes than `max`.
    fn copy(&self, alloc: Global, name: &str, max: u64) -> Result<Bytes, LoadErr>
        ensures short { IfOk result (λ bytes. length bytes ≤ max) }
        ensures found { IfOk result (λ bytes. file_of self.now name.now ≡ Some bytes) }
        ensures missing { IsErrOf result LoadErr.Missing → file_of self.now name.now ≡ None }
        ensures too_long { IsErrOf result LoadErr.TooLong
            → (bytes : List ℕ) × (file_of self.now name.now ≡ Some bytes) × (max < length bytes) }
        ensures unfailed { result ≢ Err LoadErr.Failed }
    {
        let Some(bytes) = self.file(name) else {
            return Err(LoadErr::Missing);
        };
        if bytes.len() as u64 > max {
            return Err(LoadErr::TooLong);
        }
        match Vec::from_slice(alloc, bytes) {
            Ok(copy) => Ok(Bytes::from_vec(copy)),
            Err(_) => Err(LoadErr::NoMemory),
        }
    }
}

impl Store for MemStore {
    ghost use Rattle.std.specs.Prelude.{true};
    ghost use Rattle.om_io.specs.MemStore.{counts_of, file_of, kept_in, schedule_of};

    ghost tells = { λ s. true };

    ghost file = { λ s name. file_of s name };

    ghost failed_loads = { λ s. (counts_of s).failed_loads };

    ghost failed_saves = { λ s. (counts_of s).failed_saves };

    ghost last_failed = { λ s. last_failed_in (counts_of s) };

    ghost loads_asked = { λ s. (counts_of s).loads };

    ghost saves_asked = { λ s. (counts_of s).saves };

    /// A load that is to fail answers `Failed`, or `NoMemory` where there is none for a copy of the name,
    /// and no other load answers `Failed`.
    fn load(&mut self, alloc: Global, name: &str, max: u64) -> Result<Bytes, LoadErr>
        ensures short { IfOk result (λ bytes. length bytes ≤ max) }
        ensures found { IfOk result (λ bytes. file_of self.old name.now ≡ Some bytes) }
        ensures missing { IsErrOf result LoadErr.Missing → file_of self.old name.now ≡ None }
        ensures too_long { IsErrOf result LoadErr.TooLong
            → (bytes : List ℕ) × (file_of self.old name.now ≡ Some bytes) × (max < length bytes) }

        ensures same { (other : List ℕ) → file_of self.new other ≡ file_of self.old other }
        ensures kept { kept_in self.new ≡ kept_in self.old }
        ensures counted { schedule_of self.new ≡ after_call (schedule_of self.old) }
        ensures fails { IsTrue (is_due (schedule_of self.old)) → IsErr result }
        ensures due_missing { IsTrue (is_due (schedule_of self.old)) → result ≢ Err LoadErr.Missing }
        ensures due_too_long { IsTrue (is_due (schedule_of self.old)) → result ≢ Err LoadErr.TooLong }
        ensures only { IsErrOf result LoadErr.Failed → IsTrue (is_due (schedule_of self.old)) }

        ensures failure { IsErrOf result LoadErr.Failed → counts_of self.new ≡ record (counts_of self.old) {
          loads = raised (counts_of self.old).loads;
          failed_loads = raised (counts_of self.old).failed_loads;
          last_failed = (counts_of self.new).last_failed;
        } }
        ensures whose { IsErrOf result LoadErr.Failed → last_failed_in (counts_of self.new) ≡ Some name.now }
        ensures unfailed { result ≢ Err LoadErr.Failed → counts_of self.new ≡ record (counts_of self.old) {
          loads = raised (counts_of self.old).loads;
        } }
    {
        self.counts.ask_load();
        let due = self.schedule.next();
        let copy = match Vec::from_slice(alloc, name.as_bytes()) {
            Ok(copy) => copy,
            Err(_) => return Err(LoadErr::NoMemory),
        };
        if due {
            self.counts.fail_load(copy);
            return Err(LoadErr::Failed);
        }
        self.copy(alloc, name, max)
    }

    /// A save that is to fail, or that does not fit into what is left, keeps nothing; any other is kept.
    fn save(&mut self, name: &str, bytes: &[u8]) -> Result<(), Failed>
        ensures saved { OnOk result (file_of self.new name.now ≡ Some bytes.now) }
        ensures others { (other : List ℕ) → other ≢ name.now → file_of self.new other ≡ file_of self.old other }
        ensures untouched { OnErr result ((other : List ℕ) → file_of self.new other ≡ file_of self.old other) }

        ensures fails { IsTrue (is_due (schedule_of self.old)) → IsErr result }
        ensures full { 8 ≤ length (kept_in self.old).files → IsErr result }
        ensures long { (kept_in self.old).left < length name.now + length bytes.now → IsErr result }
        ensures fits { is_due (schedule_of self.old) ≡ false → length (kept_in self.old).files < 8
            → length name.now + length bytes.now ≤ (kept_in self.old).left → IsOk result }
        ensures counted { schedule_of self.new ≡ after_call (schedule_of self.old) }
        ensures room { OnOk result ((kept_in self.new).left + (length name.now + length bytes.now) ≡ (kept_in self.old).left) }
        ensures places { OnOk result (length (kept_in self.new).files ≡ length (kept_in self.old).files + 1) }
        ensures refused { OnErr result (kept_in self.new ≡ kept_in self.old) }

        ensures ok { OnOk result (counts_of self.new ≡ record (counts_of self.old) {
          saves = raised (counts_of self.old).saves;
        }) }
        ensures err { OnErr result (counts_of self.new ≡ record (counts_of self.old) {
          saves = raised (counts_of self.old).saves;
          failed_saves = raised (counts_of self.old).failed_saves;
        }) }
    {
        self.counts.ask_save();
        if self.schedule.next() {
            self.counts.fail_save();
            return Err(Failed);
        }
        let saved = self.saves.save(name.as_bytes(), bytes);
        if saved.is_err() {
            self.counts.fail_save();
        }
        saved
    }
}
