// What a reader may answer, and what a run may: one thing, but for want of memory and for faults.
ghost use Rattle.om_strength_images.specs.OneAnswer.{ReadsOneImage};
ghost use Rattle.om_strength_images.specs.OneRun.{RunsAreOne};

/// Two answers that meet `ReadsImage` for a file are equal, or memory was wanting for one of them. So no reader of images can
/// name another rule or place, give another image, or give up.
pub fn images_are_one()
    ensures { ReadsOneImage }
{}

/// Two runs of as many steps from one state that meet `RunsTo` and do not fail answer the same, and leave the machine in one
/// state. So no machine can take another number of steps, end otherwise or elsewhere, or have other registers or memory.
pub fn runs_are_one()
    ensures { RunsAreOne }
{}
