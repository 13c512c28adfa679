// Laws of runs. Each function does nothing when it is called: its contract is a law on the definitions in specs/.
ghost use Rattle.om_symrun.specs.Writing.{RunsAreSteps, RunsOnlyWrite};

/// The state of a run after n steps is that of the n steps that follow its start.
pub fn runs_are_steps()
    ensures { RunsAreSteps }
{}

/// A run only ever adds to what was written: at each state it is a front of what is written at every later one.
pub fn runs_only_write()
    ensures { RunsOnlyWrite }
{}
