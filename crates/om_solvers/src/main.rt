// Runs the solvers of facts, masks and uses over graphs that formulas make, by lines on standard input:
//
//     SOLVER SHAPE WORDS     a checksum of what `facts`, `masks` or `uses` answer of a graph of a shape and so many words;
//                            0 for `none`, which makes the graph alone
//     edits COUNT            after how many of so many edits refreshed uses answer as fresh ones do
//
// `shapes` says what the shapes are, `edits` which edits are made.
#![tactic(auto)]

mod edits;
mod shapes;
mod sums;

use crate::shapes::{Shape, program};
use om_io::NoMemory;
use om_lift::lift_program;
use std::alloc::Global;
use std::io;

fn shape_of(text: &str) -> Option<Shape> {
    match text {
        "pairs" => Some(Shape::Pairs),
        "one" => Some(Shape::One),
        "mixed" => Some(Shape::Mixed),
        "chain" => Some(Shape::Chain),
        _ => None,
    }
}

/// What a solver answers of a graph of a shape, as one number.
fn sum(alloc: Global, solver: &str, shape: Shape, words: u32) -> Result<Option<u64>, NoMemory> {
    let Some(p) = program(alloc, shape, words)? else {
        return Ok(None);
    };
    let g = lift_program(alloc, &p)?;
    match solver {
        "facts" => Ok(Some(sums::facts(alloc, &p, &g)?)),
        "masks" => Ok(Some(sums::masks(alloc, &p, &g)?)),
        "uses" => Ok(Some(sums::uses(alloc, &g)?)),
        "none" => Ok(Some(0)),
        _ => Ok(None),
    }
}

fn solved(alloc: Global, solver: &str, rest: &str) -> Result<Option<u64>, NoMemory> {
    let Some((shape, words)) = rest.split_once(' ') else {
        return Ok(None);
    };
    match (shape_of(shape), words.parse::<u32>()) {
        (Some(shape), Ok(words)) => sum(alloc, solver, shape, words),
        _ => Ok(None),
    }
}

/// What a line asks for.
fn answer(alloc: Global, line: &str) -> Result<String, NoMemory> {
    let Some((kind, rest)) = line.split_once(' ') else {
        return Ok(String::from_str(alloc, "not to be read")?);
    };
    if kind == "edits" {
        let count = rest.parse::<u32>().unwrap_or(0);
        let agreed = edits::agreed(alloc, count)?;
        let differed = count.saturating_sub(agreed);
        return Ok(format!(in alloc; "agreed {agreed} differed {differed}")?);
    }
    match solved(alloc, kind, rest)? {
        Some(sum) => Ok(format!(in alloc; "{sum:016x}")?),
        None => Ok(String::from_str(alloc, "not to be read")?),
    }
}

fn main(rt: HostRuntime) -> io::Result<()> {
    for line in rt.lines(rt.alloc()) {
        let line = line?;
        match answer(rt.alloc(), line.as_str()) {
            Ok(text) => println!(rt; "{line}: {text}")?,
            Err(_) => println!(rt; "{line}: no memory")?,
        }
    }
    Ok(())
}
