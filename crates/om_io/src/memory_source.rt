// A source in memory.
ghost use Rattle.std.specs.Prelude.{◌≡◌, ◌≤◌, ◌++◌, Some, false, IsTrue, IfOk, IsErr, OnErr, length, min, take, drop, vec_len};
ghost use Rattle.om_io.specs.Causes.{HasCause, raised};
ghost use Rattle.om_io.specs.Outside.{Moves};
ghost use Rattle.om_io.specs.Failing.{after_call, is_due};

use crate::schedule::Schedule;
use crate::{Failed, Source};

/// Bytes to be read, of which each read gives as many as are left and fit.
#[derive(Drop)]
pub struct MemSource {
    bytes: Vec<u8>,
    at: usize,
    schedule: Schedule,
    faults: u64,
    ghost within: { at ≤ vec_len bytes },
}

impl MemSource {
    ghost use Rattle.om_io.specs.MemSource.{faults_of, left_of, schedule_of};

    /// All bytes are left. The reads whose numbers, from 0, are in `fails` are to fail.
    pub fn new(bytes: Vec<u8>, fails: Vec<u64>) -> MemSource
        ensures left { left_of result ≡ bytes.items }
        ensures fails { (schedule_of result).fails ≡ fails }
        ensures calls { (schedule_of result).calls ≡ 0 }
        ensures faults { faults_of result ≡ 0 }
    {
        MemSource {
            bytes,
            at: 0,
            schedule: Schedule::new(fails),
            faults: 0,
        }
    }

    /// The bytes that are left.
    pub fn left(&self) -> &[u8]
        ensures { result.now ≡ left_of self.now }
    {
        &self.bytes[self.at..]
    }
}

impl Source for MemSource {
    ghost use Rattle.om_io.specs.MemSource.{faults_of, left_of, schedule_of};

    ghost left = { λ s. Some (left_of s) };

    ghost faults = { λ s. faults_of s };

    /// A read that is not to fail gives as many bytes as are left and fit, and one that is moves nothing.
    fn read(&mut self, buf: &mut [u8]) -> Result<usize, Failed>
        ensures bound { IfOk result (λ count. count ≤ length buf.new) }
        ensures moves { Moves (left_of self.old) (Some (left_of self.new)) buf.new result }
        ensures cause { HasCause (faults_of self.old) (faults_of self.new) result }
        ensures once { OnErr result (faults_of self.new ≡ raised (faults_of self.old)) }

        ensures fails { IsTrue (is_due (schedule_of self.old)) → IsErr result }
        ensures gives { is_due (schedule_of self.old) ≡ false → result ≡ Ok (min (length buf.old) (length (left_of self.old))) }
        ensures copied { IfOk result (λ count. buf.new ≡ take count (left_of self.old) ++ drop count buf.old) }
        ensures untouched { OnErr result (buf.new ≡ buf.old) }
        ensures counted { schedule_of self.new ≡ after_call (schedule_of self.old) }
    {
        if self.schedule.next() {
            self.faults = self.faults.saturating_add(1);
            return Err(Failed);
        }
        let count = usize::min(buf.len(), self.bytes.len() - self.at);
        buf[..count].copy_from_slice(&self.bytes[self.at..self.at + count]);
        self.at += count;
        Ok(count)
    }
}
