// A law of masks. The function does nothing when it is called: its contract is a law on the definitions in specs/.
ghost use Rattle.om_live.specs.ByLabel.{GiveExactMasks};

/// Exact masks by number, read by label, are exact masks of the graph, and what may be read from the ends of blocks on is
/// computed from them.
pub fn masks_by_label_are_exact()
    ensures { GiveExactMasks }
{}
