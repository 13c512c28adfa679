// The laws. Each function does nothing when it is called: its contract is the law.
ghost use Rattle.om_passes.specs.Laws.{CallsAreSteps, EditsGoOn, EntriesAreSteps, OpsStillFit, OpeningsMayBePassed, PairsAreSteps, PrunesAreSteps, StepsGoOn};
ghost use Rattle.om_passes.specs.Rows.{WorkedSteps};
ghost use Rattle.om_passes.specs.Keeping.{LiftedStands, StepsKeep};
ghost use Rattle.om_passes.specs.Passed.{PassesGoOn};
ghost use Rattle.om_passes.specs.Replaces.{ReplacesInARow};

/// Each edit that a pass makes leaves a graph of a program one that passes may go on with, and a lighter one.
pub fn edits_go_on()
    ensures { EditsGoOn }
{}

/// A pair that is closed in the kept block that begins with it may be passed by calls: a block of the program begins behind it.
pub fn openings_may_be_passed()
    ensures { OpeningsMayBePassed }
{}

/// A dead address word gone, or a block outside the kept set, is a step: meaning is kept too.
pub fn prunes_are_steps()
    ensures { PrunesAreSteps }
{}

/// A known call made direct is a step.
pub fn calls_are_steps()
    ensures { CallsAreSteps }
{}

/// A closed pair that sets r29 to what it holds, gone, is a step.
pub fn pairs_are_steps()
    ensures { PairsAreSteps }
{}

/// A call past an opening pair that sets r29 to what it holds is a step.
pub fn entries_are_steps()
    ensures { EntriesAreSteps }
{}

/// Steps in a row keep meaning together, and leave a graph as it was where they leave its weight.
pub fn steps_go_on()
    ensures { StepsGoOn }
{}

/// What steps keep beside that the graph is of the program holds of the graph that a program is lifted to.
pub fn lifted_stands()
    ensures { LiftedStands }
{}

/// And each kind of edit keeps it.
pub fn steps_keep()
    ensures { StepsKeep }
{}

/// Worked steps: a call made direct, a pair dropped, a call past a pair, and the last two in a row.
pub fn worked_steps()
    ensures { WorkedSteps }
{}

/// Address ops that fitted in some numbers fit in them after each edit.
pub fn ops_still_fit()
    ensures { OpsStillFit }
{}

/// Passes in a row are a pass, and what one leaves passes may go on with.
pub fn passes_go_on()
    ensures { PassesGoOn }
{}

/// Ops of one block that are replaced one by one are one edit of it: so a load is made far with all of its uses.
pub fn replaces_in_a_row()
    ensures { ReplacesInARow }
{}
