// The laws of facts. Each function does nothing when it is called: its contract is a law on the definitions in specs/.
ghost use Rattle.om_gpfacts.specs.ByLabel.{GiveExactFacts};
ghost use Rattle.om_gpfacts.specs.OneTable.{NoneUnknown};

/// Where all kept blocks are of objects of one table, and each block leaves r29 as it was or as the low half of a pair set
/// it, no exact fact is Unknown.
pub fn facts_are_known()
    ensures { NoneUnknown }
{}

/// Exact facts by number, read by label, are exact facts of the graph.
pub fn facts_by_label_are_exact()
    ensures { GiveExactFacts }
{}
