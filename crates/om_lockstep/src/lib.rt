//! Where an image holds the words of a script, and its data the script's cells, both run in lockstep: the law that the
//! encoder of images rests on, whatever graph and whatever order of blocks the image comes from.
#![tactic(auto)]

mod laws;

pub use laws::{codes_are_kept, encoded_scripts_run_in_lockstep, loop_runs_in_lockstep};
