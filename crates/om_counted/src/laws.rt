// The laws. Each function does nothing when it is called: its contract is a law on the definitions in specs/.
ghost use Rattle.om_counted.specs.Levels.{CountedIsLeftIn, ImagesRun};

/// What an image counts of a run, by its map and its text alone, is what its graph leaves in.
pub fn counted_is_left_in()
    ensures { CountedIsLeftIn }
{}

/// At both levels an image runs as its program does at counted steps, of which there is at least one among one more than the
/// program has words; so it writes at least what the program writes, ends as it ends, and ends only where it ends or observes.
pub fn images_run()
    ensures { ImagesRun }
{}
