// The program: what the machine gives, handed to the top call.
#![tactic(auto)]

use om_command::{om, report_no_memory, words_of};
use om_io::{DirStore, StdSink, StdSource};
use std::alloc::AllocError;
use std::process::ExitCode;

fn main(rt: HostRuntime) -> ExitCode {
    let mut err = StdSink::new(rt.stderr());
    let words = match words_of(&rt) {
        Ok(words) => words,
        Err(AllocError) => return ExitCode::from(report_no_memory(&mut err)),
    };
    let mut store = DirStore::new(rt);
    let mut input = StdSource::new(rt.stdin());
    let mut out = StdSink::new(rt.stdout());
    ExitCode::from(om(
        rt.alloc(),
        &words,
        &mut store,
        &mut input,
        &mut out,
        &mut err,
    ))
}
