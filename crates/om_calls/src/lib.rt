//! Calls: a call by a register that holds a known place becomes direct, and a call of code that sets r29 to what it holds
//! already goes past that. Other code that sets r29 to what it holds goes.
#![tactic(auto)]

mod directing;
mod dropping;
mod ends;
mod entering;
mod openings;
mod pairs;
mod reach;

pub use directing::direct;
pub use dropping::drop_gp;
pub use entering::enter;
