// The standard streams. They tell no content.
ghost use Rattle.std.specs.Prelude.{◌≡◌, ◌≤◌, length, IfOk, OnOk, OnErr};
ghost use Rattle.std.specs.Io.KnownBytes.{Appends, ReadConsumes};
ghost use Rattle.om_io.specs.Causes.{HasCause, raised};

use crate::{Failed, Sink, Source};
use std::io::{self, Read, Write};

/// A reader, as the standard input, as a source.
///
/// It tells no content of its own: what a file or a terminal gives is the system's word. Where the
/// reader itself tells its bytes, a read gives the next of them.
#[derive(Drop)]
pub struct StdSource<R: Drop> {
    inner: R,
    faults: u64,
}

impl<R: Drop> StdSource<R> {
    ghost use Rattle.om_io.specs.Adapters.{reader_of, source_faults};

    /// A source over this reader, which has not failed so far.
    pub fn new(inner: R) -> Self
        ensures reader { reader_of result ≡ inner }
        ensures faults { source_faults result ≡ 0 }
    {
        StdSource { inner, faults: 0 }
    }
}

impl<R: Read + Drop> Source for StdSource<R> {
    ghost use Rattle.std.specs.Prelude.{None};
    ghost use Rattle.om_io.specs.Adapters.{reader_of, source_faults};

    ghost left = { λ s. None };

    ghost faults = { λ s. source_faults s };

    /// One read of the reader. Each of its errors raises the count of faults by one.
    fn read(&mut self, buf: &mut [u8]) -> Result<usize, Failed>
        ensures bound { IfOk result (λ count. count ≤ length buf.new) }
        ensures bytes { ReadConsumes (R.remaining (reader_of self.old)) (R.remaining (reader_of self.new)) result buf.new }
        ensures cause { HasCause (source_faults self.old) (source_faults self.new) result }
        ensures once { OnErr result (source_faults self.new ≡ raised (source_faults self.old)) }
    {
        match self.inner.read(buf) {
            Ok(count) => Ok(count),
            Err(_) => {
                self.faults = self.faults.saturating_add(1);
                Err(Failed)
            }
        }
    }
}

/// A writer, as the standard output, as a sink.
///
/// It tells no content of its own: what becomes of the bytes is the system's word. Where the writer
/// itself tells its bytes, a put appends all of them.
#[derive(Drop)]
pub struct StdSink<W: Drop> {
    inner: W,
    faults: u64,
}

impl<W: Drop> StdSink<W> {
    ghost use Rattle.om_io.specs.Adapters.{sink_faults, writer_of};

    /// A sink over this writer, which has not failed so far.
    pub fn new(inner: W) -> Self
        ensures writer { writer_of result ≡ inner }
        ensures faults { sink_faults result ≡ 0 }
    {
        StdSink { inner, faults: 0 }
    }
}

// Writes all bytes and flushes. A writer that takes nothing of a piece that is not empty fails.
fn put_all<W: Write>(inner: &mut W, bytes: &[u8]) -> io::Result<()>
    ensures { OnOk result (Appends (W.contents inner.old) (W.contents inner.new) bytes.now) }
{
    inner.write_all(bytes)?;
    inner.flush()?;
    Ok(())
}

impl<W: Write + Drop> Sink for StdSink<W> {
    ghost use Rattle.std.specs.Prelude.{None};
    ghost use Rattle.om_io.specs.Adapters.{sink_faults, writer_of};

    ghost written = { λ s. None };

    ghost faults = { λ s. sink_faults s };

    /// Writes all bytes and flushes. Each error of the writer raises the count of faults by one, and so
    /// does a writer that takes nothing of a piece that is not empty.
    fn put(&mut self, bytes: &[u8]) -> Result<(), Failed>
        ensures bytes { OnOk result (Appends (W.contents (writer_of self.old)) (W.contents (writer_of self.new)) bytes.now) }
        ensures cause { HasCause (sink_faults self.old) (sink_faults self.new) result }
        ensures once { OnErr result (sink_faults self.new ≡ raised (sink_faults self.old)) }
    {
        match put_all(&mut self.inner, bytes) {
            Ok(()) => Ok(()),
            Err(_) => {
                self.faults = self.faults.saturating_add(1);
                Err(Failed)
            }
        }
    }
}
