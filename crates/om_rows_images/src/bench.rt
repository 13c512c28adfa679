// The streams of a run of the machine.
use crate::causes::Bad;
use crate::said::Said;
use om_io::{MemSink, MemSource};
use om_machine::{Machine, Step};
use std::alloc::Global;

/// A machine and the streams that it runs with.
#[derive(Drop)]
pub struct Bench {
    pub machine: Machine,
    pub input: MemSource,
    pub out: MemSink,
    pub err: MemSink,
}

fn say_step(alloc: Global, said: &mut Said, step: Step) -> Result<(), Bad> {
    let text = match step {
        Step::Trap { kind, at } => format!(in alloc; "{kind:?} at {at:#x}")?,
        other => format!(in alloc; "{other:?}")?,
    };
    said.word(text.as_str())
}

// How many bytes these are, where all are zeros.
fn say_zeros(said: &mut Said, bytes: &[u8]) -> Result<(), Bad> {
    if bytes.iter().all(|byte| *byte == 0) {
        said.number(bytes.len() as u64)
    } else {
        said.word("not_zeros")
    }
}

impl Bench {
    fn step(&mut self) -> Step {
        self.machine
            .step(&mut self.input, &mut self.out, &mut self.err)
    }

    fn run(&mut self, steps: u64) -> Step {
        self.machine
            .run(steps, &mut self.input, &mut self.out, &mut self.err)
    }

    // Says what the machine and its streams are.
    fn look(&self, alloc: Global, said: &mut Said, what: &str) -> Result<(), Bad> {
        match what {
            "pc" => said.word(format!(in alloc; "{:#x}", self.machine.pc())?.as_str()),
            "ended" => said.word(if self.machine.ended() {
                "ended"
            } else {
                "running"
            }),
            "left" => said.bytes(self.input.left()),
            "out" => said.bytes(self.out.bytes()),
            "err" => said.bytes(self.err.bytes()),
            "zeros" => say_zeros(said, self.out.bytes()),
            _ => Err(Bad::Text),
        }
    }

    /// Does `run:STEPS` or `step`, or says `pc`, `ended`, `left`, `out`, `err`, or how many `zeros` were written.
    pub fn act(&mut self, alloc: Global, said: &mut Said, action: &str) -> Result<(), Bad> {
        if action == "step" {
            let step = self.step();
            return say_step(alloc, said, step);
        }
        match action.strip_prefix("run:") {
            Some(steps) => {
                let step = self.run(steps.parse::<u64>().map_err(|_| Bad::Text)?);
                say_step(alloc, said, step)
            }
            None => self.look(alloc, said, action),
        }
    }
}
