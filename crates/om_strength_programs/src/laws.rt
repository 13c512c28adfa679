// Laws by which a contract allows one answer. Each function does nothing when it is called: its contract is the law.
ghost use Rattle.om_strength_programs.specs.OneAnswer.{OneProgram, OneResolution, OneLift, OneRun};

/// Parts have one answer, but for want of memory: two results that `Program::make` may give are the same.
pub fn one_program()
    ensures { OneProgram }
{}

/// Objects have one answer, but for want of memory: two results that `resolve` may give are the same.
pub fn one_resolution()
    ensures { OneResolution }
{}

/// A program has one graph, but for the numbers of blocks and ops.
pub fn one_lift()
    ensures { OneLift }
{}

/// A run of a program has one answer, but for faults and want of memory, and leaves the machine in one state.
pub fn one_run()
    ensures { OneRun }
{}
