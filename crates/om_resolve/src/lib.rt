//! Names of a list of objects, and the program that the objects are.
#![tactic(auto)]

mod aims;
mod causes;
mod definition;
mod fields;
mod finding;
mod laws;
mod linked;
mod names;
mod prefixes;
mod regions;
mod resolving;
mod roles;
mod scans;
mod texts;
mod totals;

pub use causes::{ResolveErr, Which};
pub use laws::objects_make_programs;
pub use resolving::resolve;
