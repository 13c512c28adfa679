// The command: the words of a call, what they ask for, and the answer.
#![tactic(auto)]

mod arguments;
mod exec_stop;
mod executing;
mod image_files;
mod image_stop;
mod lines;
mod link_stop;
mod linking;
mod listing;
mod loading;
mod no_program;
mod obeying;
mod report;
mod run_stop;
mod running;
mod sim_stop;
mod simulating;
mod top;

pub use arguments::words_of;
pub use report::report_no_memory;
pub use top::om;
