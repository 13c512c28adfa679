// The laws of the encoder. Each function does nothing when it is called: its contract is a law on the definitions in specs/.
ghost use Rattle.om_encode.specs.Runs.{TrueMapsRun, LiftedImagesRun};
ghost use Rattle.om_encode.specs.Headline.{CountedGivesHeadline, LockstepGivesHeadline, FollowsAndRuns, LinkedImagesRun};
ghost use Rattle.om_encode.specs.Fitting.{FitsInEveryLayout, ReachedBranchesFit};
ghost use Rattle.om_encode.specs.Rows.{TheImageRuns};
ghost use Rattle.om_encode.specs.TurnedRows.{TurnedWordsRun};
ghost use Rattle.om_encode.specs.Valid.{TrueMapsAreValid};

/// A valid image whose map is true of a graph of a program, in whatever order its words stand, runs in lockstep with the
/// graph.
pub fn true_maps_run()
    ensures { TrueMapsRun }
{}

/// Where the graph is the one that the program is lifted to, the image runs in lockstep with the program.
pub fn lifted_images_run()
    ensures { LiftedImagesRun }
{}

/// An image that is alike with a script at the counted steps of its run writes at least what the script writes, ends as it
/// ends, and ends only where it ends or observes.
pub fn counted_gives_headline()
    ensures { CountedGivesHeadline }
{}

/// So does an image that runs in lockstep with a script.
pub fn lockstep_gives_headline()
    ensures { LockstepGivesHeadline }
{}

/// An image in lockstep with a script that follows another is alike with that one at the counted steps.
pub fn follows_and_runs()
    ensures { FollowsAndRuns }
{}

/// A valid image whose map is true of a graph that keeps a program's meaning writes and ends as the program does.
pub fn linked_images_run()
    ensures { LinkedImagesRun }
{}

/// In every layout of a graph slots, pairs and distances fit their fields.
pub fn fits_in_every_layout()
    ensures { FitsInEveryLayout }
{}

/// In order of object and offset so do branches that are in reach.
pub fn reached_branches_fit()
    ensures { ReachedBranchesFit }
{}

/// A worked image meets all that these laws ask for, so that they say something.
pub fn worked_image_runs()
    ensures { TheImageRuns }
{}

/// So does one whose words stand in another order, and the encoder takes its graph.
pub fn turned_words_run()
    ensures { TurnedWordsRun }
{}

/// Within the limits of a link an image with a true map breaks no rule of images.
pub fn true_maps_are_valid()
    ensures { TrueMapsAreValid }
{}
