// Callers of sinks, sources and stores.
ghost use Rattle.std.specs.Prelude.{◌≡◌, ◌≢◌, ◌+◌, ◌≤◌, ◌<◌, ℕ, List, length, Some, IsTrue, IsErrOf, IfOk, IsErr, OnErr};
ghost use Rattle.om_io.specs.Causes.{HasCause, Rose, raised};
ghost use Rattle.om_io.specs.Outside.{Appends, Moves};
ghost use Rattle.om_io.specs.Failing.{is_due};
ghost use Rattle.om_io.specs.MemSink.{room_of, written_in};
ghost use Rattle.om_io.specs.MemStore.{file_of, schedule_of};

use om_io::{Bytes, Failed, LoadErr, MemSink, MemStore, Sink, Source, Store};
use std::alloc::Global;

pub fn put<S: Sink>(s: &mut S, bytes: &[u8]) -> Result<(), Failed>
    ensures appends { (old : List ℕ) → S.written s.old ≡ Some old → Appends old (S.written s.new) bytes.now result }
    ensures cause { HasCause (S.faults s.old) (S.faults s.new) result }
{
    s.put(bytes)
}

pub fn put_in_memory(s: &mut MemSink, bytes: &[u8]) -> Result<(), Failed>
    ensures full { room_of s.old < length (written_in s.old) + length bytes.now → IsErr result }
    ensures untouched { OnErr result (written_in s.new ≡ written_in s.old) }
{
    Sink::put(s, bytes)
}

pub fn read<S: Source>(s: &mut S, buf: &mut [u8]) -> Result<usize, Failed>
    ensures moves { (bytes : List ℕ) → S.left s.old ≡ Some bytes → Moves bytes (S.left s.new) buf.new result }
    ensures not_end { (bytes : List ℕ) → S.left s.old ≡ Some bytes → 0 < length bytes → 0 < length buf.new
        → IfOk result (λ count. 0 < count) }
    ensures cause { HasCause (S.faults s.old) (S.faults s.new) result }
{
    s.read(buf)
}

pub fn load<S: Store>(s: &mut S, alloc: Global, name: &str, max: u64) -> Result<Bytes, LoadErr>
    ensures loads { S.loads_asked s.new ≡ raised (S.loads_asked s.old) }
    ensures failed { IsErrOf result LoadErr.Failed → Rose (S.failed_loads s.old) (S.failed_loads s.new) }
    ensures unfailed { result ≢ Err LoadErr.Failed → S.failed_loads s.new ≡ S.failed_loads s.old }
{
    s.load(alloc, name, max)
}

pub fn load_from_memory(
    s: &mut MemStore,
    alloc: Global,
    name: &str,
    max: u64,
) -> Result<Bytes, LoadErr>
    ensures found { IfOk result (λ bytes. file_of s.old name.now ≡ Some bytes) }
    ensures due_missing { IsTrue (is_due (schedule_of s.old)) → result ≢ Err LoadErr.Missing }
{
    Store::load(s, alloc, name, max)
}
