//! What callers can rely on: a caller of each public function that makes, edits, lays out or runs programs promises what
//! the function promises, and must-fail/ holds callers that answer otherwise; and laws by which a contract allows one
//! answer, but for want of memory.
#![tactic(auto)]

pub mod arenas;
pub mod graphs;
pub mod laws;
pub mod layouts;
pub mod lifts;
pub mod objects;
pub mod programs;
pub mod runs;
