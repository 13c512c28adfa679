// A sink in memory.
ghost use Rattle.std.specs.Prelude.{◌≡◌, ◌+◌, ◌<◌, ◌≤◌, ℕ, List, [], Option, Some, false, IsTrue, IfOk, IsOk, IsErr, OnErr, length, vec_len, vec_capacity};
ghost use Rattle.om_io.specs.Causes.{HasCause, raised};
ghost use Rattle.om_io.specs.Outside.{Appends};
ghost use Rattle.om_io.specs.Failing.{after_call, is_due};

use crate::schedule::Schedule;
use crate::{Failed, NoMemory, Sink};
use std::alloc::Global;

/// Bytes that were written, in memory that is reserved from the start.
#[derive(Drop)]
pub struct MemSink {
    bytes: Vec<u8>,
    room: usize,
    schedule: Schedule,
    faults: u64,
    ghost within: { vec_len bytes ≤ room },
    ghost reserved: { room ≤ vec_capacity bytes },
}

impl MemSink {
    ghost use Rattle.om_io.specs.MemSink.{faults_of, room_of, schedule_of, written_in};

    /// Nothing is written, and `room` bytes are reserved. The puts whose numbers, from 0, are in `fails` are to fail.
    pub fn new(alloc: Global, room: u64, fails: Vec<u64>) -> Result<MemSink, NoMemory>
        ensures written { IfOk result (λ s. written_in s ≡ []) }
        ensures room { IfOk result (λ s. room_of s ≡ room) }
        ensures fails { IfOk result (λ s. (schedule_of s).fails ≡ fails) }
        ensures calls { IfOk result (λ s. (schedule_of s).calls ≡ 0) }
        ensures faults { IfOk result (λ s. faults_of s ≡ 0) }
    {
        let room = room as usize;
        Ok(MemSink {
            bytes: Vec::with_capacity(alloc, room)?,
            room,
            schedule: Schedule::new(fails),
            faults: 0,
        })
    }

    /// The bytes that were written.
    pub fn bytes(&self) -> &[u8]
        ensures { result.now ≡ written_in self.now }
    {
        &self.bytes
    }
}

impl Sink for MemSink {
    ghost use Rattle.om_io.specs.MemSink.{faults_of, room_of, schedule_of, written_in};

    ghost written = { λ s. Some (written_in s) };

    ghost faults = { λ s. faults_of s };

    /// A put that is to fail, or for which the room does not suffice, writes nothing; any other writes all.
    fn put(&mut self, bytes: &[u8]) -> Result<(), Failed>
        ensures appends { Appends (written_in self.old) (Some (written_in self.new)) bytes.now result }
        ensures cause { HasCause (faults_of self.old) (faults_of self.new) result }
        ensures once { OnErr result (faults_of self.new ≡ raised (faults_of self.old)) }

        ensures fails { IsTrue (is_due (schedule_of self.old)) → IsErr result }
        ensures full { room_of self.old < length (written_in self.old) + length bytes.now → IsErr result }
        ensures fits { is_due (schedule_of self.old) ≡ false → length (written_in self.old) + length bytes.now ≤ room_of self.old
            → IsOk result }
        ensures untouched { OnErr result (written_in self.new ≡ written_in self.old) }
        ensures counted { schedule_of self.new ≡ after_call (schedule_of self.old) }
        ensures room { room_of self.new ≡ room_of self.old }
    {
        if self.schedule.next() {
            self.faults = self.faults.saturating_add(1);
            return Err(Failed);
        }
        if bytes.len() > self.room - self.bytes.len() {
            self.faults = self.faults.saturating_add(1);
            return Err(Failed);
        }
        let Ok(()) = self.bytes.extend_from_slice(bytes) else {
            unreachable!()
        };
        Ok(())
    }
}
