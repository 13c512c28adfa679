// Tries the vectors on standard input, one a line, against om_alpha and om_isa: prints each line that
// differs, and how many agree. `vectors/generate.py` writes the lines and says what they hold. Then the vectors of
// arithmetic that do not overflow run through om_machine as one image.
#![tactic(auto)]

mod lines;
mod trial;

use crate::trial::Trial;
use std::io;

/// More steps than the image takes.
const STEPS: u64 = 1_000_000;

fn main(rt: HostRuntime) -> io::Result<()> {
    let mut agree: u64 = 0;
    let mut differ: u64 = 0;
    let mut tried: u64 = 0;
    let mut trial = Trial::new(rt.alloc())?;
    for line in rt.lines(rt.alloc()) {
        let line = line?;
        if let Some(vector) = lines::vector_of(line.as_str()) {
            trial.add(vector)?;
            tried = tried.saturating_add(1);
        }
        if lines::agrees(rt.alloc(), line.as_str())? {
            agree = agree.saturating_add(1);
        } else {
            differ = differ.saturating_add(1);
            println!(rt; "differs: {line}")?;
        }
    }
    println!(rt; "{agree} agree, {differ} differ")?;
    let passes = trial.passes(rt.alloc(), STEPS).unwrap_or(false);
    println!(rt;
        "{tried} run as one image: {}",
        if passes { "all agree" } else { "not all agree" }
    )
}
