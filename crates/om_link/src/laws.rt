// What follows for linked images. Each function does nothing when it is called: its contract is a law on the
// definitions in specs/, proved for all programs and images.
ghost use Rattle.om_link.specs.Laws.{LinkedImagesRun, OnePlainImage};

/// A linked image runs as its program does: while the program shows no address, both have written the same after counted
/// steps, have taken the same of the input, and end in the same way. A plain image runs in lockstep with its program.
pub fn linked_images_run()
    ensures { LinkedImagesRun }
{}

/// Data and text of a plain image follow from the program alone: all plain images of the same objects have equal bytes.
pub fn one_plain_image()
    ensures { OnePlainImage }
{}
