//! What rewriting passes owe: a step of a pass, steps in a row, and the laws that one edit of a graph of a program
//! leaves one that passes may go on with.
#![tactic(auto)]

mod laws;

pub use laws::{
    calls_are_steps, edits_go_on, entries_are_steps, lifted_stands, openings_may_be_passed,
    ops_still_fit, pairs_are_steps, passes_go_on, prunes_are_steps, replaces_in_a_row, steps_go_on,
    steps_keep, worked_steps,
};
