// The laws of graphs, on which the rewriting passes rest. Each function does nothing when it is called: its contract is
// a law on the definitions in specs/, proved for all programs and graphs.
ghost use Rattle.om_graph.specs.Grouping.{GroupingKeepsMeaning};
ghost use Rattle.om_graph.specs.Tables.{OtherTables};
ghost use Rattle.om_graph.specs.Laws.{PassesCompose, SomeStepIsLeftIn, RunsStayInKeptSet, CheckedFactsHold, CheckedMasksHold, LiftKeepsMeaning, GraphsOfPrograms, LastWritersByPlaces};

/// A graph keeps its own meaning, and passes in a row that keep meaning keep it together.
pub fn passes_compose()
    ensures { PassesCompose }
{}

/// Of as many steps in a row as there are words, and one more, at least one is left in by a graph that keeps meaning.
pub fn some_step_is_left_in()
    ensures { SomeStepIsLeftIn }
{}

/// A run stays in the kept set, where the kept set lies within the kept blocks, and so does each place in code that it
/// holds.
pub fn runs_stay_in_kept_set()
    ensures { RunsStayInKeptSet }
{}

/// Facts on r29 that a check passes hold on every walk and in every run; walks over blocks are walks over words.
pub fn checked_facts_hold()
    ensures { CheckedFactsHold }
{}

/// Masks that a check passes have each register that may be read, and tell which may be read behind each word; what walks
/// over blocks read may be read.
pub fn checked_masks_hold()
    ensures { CheckedMasksHold }
{}

/// The graph that a program is lifted to runs as the program does, and is a graph of it.
pub fn lift_keeps_meaning()
    ensures { LiftKeepsMeaning }
{}

/// A graph of a program is what the other laws ask for.
pub fn graphs_of_programs()
    ensures { GraphsOfPrograms }
{}

/// A graph whose objects have other tables keeps all steps of a run that shows no address, and is a graph of its program.
pub fn other_tables()
    ensures { OtherTables }
{}

/// Grouping the objects' tables keeps all steps of a run that shows no address, and the new tables are tables of the
/// program's graphs.
pub fn grouping_keeps_meaning()
    ensures { GroupingKeepsMeaning }
{}

/// In words of one text, in order, the last one before a place that writes a register is told by places.
pub fn last_writers_by_places()
    ensures { LastWritersByPlaces }
{}
