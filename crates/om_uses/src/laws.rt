//! The laws of uses. Each function does nothing when it is called.
ghost use Rattle.om_uses.specs.LocalUses.{ReadersAreLocalUses};
ghost use Rattle.om_uses.specs.Near.{EditsStayNear};

/// Uses of a graph are nearly those of the graph behind each of its edits: all but what is kept of touched blocks. So
/// `refresh` may be called after any number of edits.
pub fn edits_stay_near()
    ensures { EditsStayNear }
{}

/// The readers of a result are its local uses among the words of its block, in a graph of a program: an op reads it exactly
/// where its word is one, the end of the block exactly where its word is one, and it is there at the end exactly where no
/// later word writes its register.
pub fn readers_are_local_uses()
    ensures { ReadersAreLocalUses }
{}
