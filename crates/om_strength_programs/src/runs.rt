// Callers of om_symrun.
ghost use Rattle.std.specs.Prelude.{◌≡◌, ℕ, List, [], IfOk, Option};
ghost use Rattle.om_prog.specs.Runs.{sym_start};
ghost use Rattle.om_prog.specs.Script.{program_script};
ghost use Rattle.om_prog.specs.Step.{SymState};
ghost use Rattle.om_symrun.specs.Calls.{IsState, IsAnswer};
ghost use Rattle.om_symrun.specs.Steps.{RunsTo};
ghost use Rattle.om_symrun.specs.View.{state_of};

use om_io::{NoMemory, Sink, Source};
use om_prog::Program;
use om_symrun::{SymRun, SymStep};
use om_value::Place;
use std::alloc::Global;

/// The start of a run of one of two programs.
pub fn start<'a>(alloc: Global, p: &'a Program, other: &'a Program) -> Result<SymRun<'a>, NoMemory>
    ensures program { IfOk result (λ m. m.program ≡ p.now) }
    ensures start { IfOk result (λ m. (input : List ℕ)
        → state_of m input [] [] ≡ sym_start (program_script p.now) input) }
{
    let run = SymRun::new(alloc, p)?;
    Ok(run)
}

/// The place of the next word.
pub fn place(run: &SymRun<'_>) -> Place
    ensures { result ≡ run.now.place }
{
    run.place()
}

/// Takes steps, as long as none fails.
pub fn run<I: Source, O: Sink, E: Sink>(
    run: &mut SymRun<'_>,
    steps: u64,
    input: &mut I,
    out: &mut O,
    err: &mut E,
) -> SymStep
    ensures runs { (s : SymState) (out_before err_before : Option (List ℕ))
        → IsState run.old (I.left input.old)
        (out_before, O.written out.old) (err_before, E.written err.old) s
        → RunsTo (program_script run.old.program) steps result s run.new (I.left input.new)
        (out_before, O.written out.new) (err_before, E.written err.new) }
    ensures answer { IsAnswer result run.new.end }
{
    run.run(steps, input, out, err)
}
