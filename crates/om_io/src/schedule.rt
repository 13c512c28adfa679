// Which calls of an object in memory are to fail.
ghost use Rattle.std.specs.Prelude.{◌≡◌};
ghost use Rattle.om_io.specs.Causes.{raised};

/// The numbers, from 0, of the calls that are to fail, and how many calls there have been.
#[derive(Drop)]
pub struct Schedule {
    fails: Vec<u64>,
    calls: u64,
}

impl Schedule {
    ghost use Rattle.om_io.specs.Failing.{after_call, is_due};

    /// No call so far.
    pub fn new(fails: Vec<u64>) -> Schedule
        ensures fails { result.fails ≡ fails }
        ensures calls { result.calls ≡ 0 }
    {
        Schedule { fails, calls: 0 }
    }

    /// Counts one more call, and says whether it is to fail.
    pub fn next(&mut self) -> bool
        ensures due { result ≡ is_due self.old }
        ensures counted { self.new ≡ after_call self.old }
    {
        let call = self.calls;
        self.calls = call.saturating_add(1);
        self.fails.contains(&call)
    }
}
