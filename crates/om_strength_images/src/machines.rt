// Callers of the numeric machine.
ghost use Rattle.std.specs.Prelude.{◌≡◌, ℕ, List, [], Option, IfOk};
ghost use Rattle.om_image.specs.NumState.{NumState};
ghost use Rattle.om_image.specs.NumStep.{num_start};
ghost use Rattle.om_image.specs.Valid.{IsValidImage};
ghost use Rattle.om_machine.specs.Calls.{IsState, IsAnswer};
ghost use Rattle.om_machine.specs.Steps.{StepsTo, RunsTo};
ghost use Rattle.om_machine.specs.View.{HasImage, state_of};

use om_image::Image;
use om_io::{NoMemory, Sink, Source};
use om_machine::{Machine, Step};
use std::alloc::Global;

pub fn loaded(alloc: Global, i: &Image) -> Result<Machine, NoMemory>
    requires { IsValidImage i.now }
    ensures image { IfOk result (HasImage i.now) }
    ensures start { IfOk result (λ m. (input : List ℕ) → state_of m input [] [] ≡ num_start i.now input) }
{
    Machine::load(alloc, i)
}

pub fn place(m: &Machine) -> u64
    ensures { result ≡ m.now.pc }
{
    m.pc()
}

pub fn stepped<I: Source, S: Sink>(m: &mut Machine, input: &mut I, out: &mut S, err: &mut S) -> Step
    ensures steps { (i : Image) (s : NumState) (out_before err_before : Option (List ℕ)) → HasImage i m.old
        → IsState m.old (I.left input.old) (out_before, S.written out.old) (err_before, S.written err.old) s
        → StepsTo i result s m.new (I.left input.new) (out_before, S.written out.new)
        (err_before, S.written err.new) }
    ensures answer { IsAnswer result m.new.end }
{
    m.step(input, out, err)
}

pub fn run<I: Source, S: Sink>(
    m: &mut Machine,
    steps: u64,
    input: &mut I,
    out: &mut S,
    err: &mut S,
) -> Step
    ensures runs { (i : Image) (s : NumState) (out_before err_before : Option (List ℕ)) → HasImage i m.old
        → IsState m.old (I.left input.old) (out_before, S.written out.old) (err_before, S.written err.old) s
        → RunsTo i steps result s m.new (I.left input.new) (out_before, S.written out.new)
        (err_before, S.written err.new) }
    ensures answer { IsAnswer result m.new.end }
{
    m.run(steps, input, out, err)
}
