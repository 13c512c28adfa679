// The laws. Each function does nothing when it is called: its contract is the law.
ghost use Rattle.om_lockstep.specs.Lockstep.{EncodedScriptsRunInLockstep, CodesAreKept};
ghost use Rattle.om_lockstep.specs.Rows.{LoopRunsInLockstep};

/// Where an image holds a script and starts as it does, and the codes that values hold are places where the image has
/// words, then for every input and number of steps: where the script's run has not observed an address, the image's run
/// is alike with it.
pub fn encoded_scripts_run_in_lockstep()
    ensures { EncodedScriptsRunInLockstep }
{}

/// Codes that a run holds stay among some places, and the run among others, where it starts so and each word that it
/// reaches brings in no other codes and leads to no other place.
pub fn codes_are_kept()
    ensures { CodesAreKept }
{}

/// A worked image of one word that branches to itself meets what the law asks for, so that it says something.
pub fn loop_runs_in_lockstep()
    ensures { LoopRunsInLockstep }
{}
