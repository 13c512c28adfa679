// Laws of runs.
ghost use Rattle.om_machine.specs.Writing.{RunsOnlyWrite};

/// A run only ever adds to what was written: at each state it is a front of what is written at every later one.
pub fn runs_only_write()
    ensures { RunsOnlyWrite }
{}
