// A reader and a writer that fail as a row says.
use std::alloc::Global;
use std::io::{self, ErrorKind, Read, Write};

/// A reader that gives at most a chunk at a call; the calls whose numbers, from 0, are listed fail and give nothing.
#[derive(Drop)]
pub struct Reader {
    bytes: Vec<u8>,
    at: usize,
    chunk: usize,
    fails: Vec<u64>,
    calls: u64,
}

impl Reader {
    pub fn new(bytes: Vec<u8>, chunk: u64, fails: Vec<u64>) -> Reader {
        Reader {
            bytes,
            at: 0,
            chunk: chunk as usize,
            fails,
            calls: 0,
        }
    }
}

impl Read for Reader {
    fn read(&mut self, buf: &mut [u8]) -> io::Result<usize> {
        let call = self.calls;
        self.calls = call.saturating_add(1);
        if self.fails.contains(&call) {
            return Err(io::Error::from(ErrorKind::ConnectionReset));
        }
        let left = self.bytes.get(self.at..).unwrap_or(&[]);
        let count = buf.len().min(left.len()).min(self.chunk);
        buf[..count].copy_from_slice(&left[..count]);
        self.at = self.at.saturating_add(count);
        Ok(count)
    }
}

/// A writer that takes at most a chunk at a call and no more than its room in all; the flushes whose numbers, from 0, are listed
/// fail. It knows how much was flushed.
#[derive(Drop)]
pub struct Writer {
    taken: Vec<u8>,
    chunk: usize,
    room: usize,
    fails: Vec<u64>,
    flushes: u64,
    flushed: usize,
}

impl Writer {
    pub fn new(alloc: Global, chunk: u64, room: u64, fails: Vec<u64>) -> Writer {
        Writer {
            taken: Vec::new(alloc),
            chunk: chunk as usize,
            room: room as usize,
            fails,
            flushes: 0,
            flushed: 0,
        }
    }

    pub fn taken(&self) -> &[u8] {
        &self.taken
    }

    pub fn flushed(&self) -> usize {
        self.flushed
    }
}

impl Write for Writer {
    fn write(&mut self, buf: &[u8]) -> io::Result<usize> {
        let room = self.room.saturating_sub(self.taken.len());
        let count = buf.len().min(room).min(self.chunk);
        self.taken.extend_from_slice(&buf[..count])?;
        Ok(count)
    }

    fn flush(&mut self) -> io::Result<()> {
        let flush = self.flushes;
        self.flushes = flush.saturating_add(1);
        if self.fails.contains(&flush) {
            return Err(io::Error::from(ErrorKind::BrokenPipe));
        }
        self.flushed = self.taken.len();
        Ok(())
    }
}
