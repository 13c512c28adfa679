// The laws. Each function does nothing when it is called: its contract is the law.
ghost use Rattle.om_thorough.specs.Laws.{RestIsThorough, ExactMasksAgree, PairsHaveToBeWhole, RowsHold};

/// Where no rule of rewriting applies to the graph of an image any more, nothing is left to rewrite in the image.
pub fn rest_is_thorough()
    ensures { RestIsThorough }
{}

/// Masks that are exact agree, whoever solved for them.
pub fn exact_masks_agree()
    ensures { ExactMasksAgree }
{}

/// A graph to which no rule applies may keep half of a pair: so that pairs are whole is a premise of its own.
pub fn pairs_have_to_be_whole()
    ensures { PairsHaveToBeWhole }
{}

/// The worked rows hold.
pub fn rows_hold()
    ensures { RowsHold }
{}
