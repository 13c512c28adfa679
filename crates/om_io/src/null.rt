// The outside that is not there.
ghost use Rattle.std.specs.Prelude.{◌≡◌, IsOk};

use crate::{Failed, Sink, Source};

/// A sink that drops all bytes. It tells nothing and never fails.
#[derive(Clone, Copy, Debug, PartialEq, Eq)]
pub struct NullSink;

impl Sink for NullSink {
    ghost use Rattle.std.specs.Prelude.{None};

    ghost written = { λ s. None };

    ghost faults = { λ s. 0 };

    /// Drops the bytes.
    fn put(&mut self, _bytes: &[u8]) -> Result<(), Failed>
        ensures { IsOk result }
    {
        Ok(())
    }
}

/// A source of which nothing is left. It never fails.
#[derive(Clone, Copy, Debug, PartialEq, Eq)]
pub struct NullSource;

impl Source for NullSource {
    ghost use Rattle.std.specs.Prelude.{Some, []};

    ghost left = { λ s. Some [] };

    ghost faults = { λ s. 0 };

    /// The end of the input.
    fn read(&mut self, buf: &mut [u8]) -> Result<usize, Failed>
        ensures ok { result ≡ Ok 0 }
        ensures untouched { buf.new ≡ buf.old }
    {
        Ok(0)
    }
}
