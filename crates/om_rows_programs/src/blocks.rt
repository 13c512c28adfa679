// Rows of the blocks of a program.
ghost use Rattle.std.specs.Prelude.{IsTrue};
ghost use Rattle.om_graph.specs.View.{is_live_block};

use crate::programs::program_of;
use crate::show;
use om_graph::{BlockId, Graph, Last, Op, OpKind};
use om_isa::{Instr, MemOp, Reg, encode};
use om_lift::lift_program;
use om_prog::Role;
use om_rows::Bad;
use om_value::Place;
use std::alloc::{AllocError, Global};

fn graph_of(alloc: Global, said: &str) -> Result<Graph, Bad> {
    let program = program_of(alloc, said)?;
    match lift_program(alloc, &program) {
        Ok(graph) => Ok(graph),
        Err(_) => Err(Bad::NoMemory),
    }
}

/// The word of a memory instruction with the displacement 0, and its role.
fn memory_text(
    alloc: Global,
    op: MemOp,
    ra: Reg,
    rb: Reg,
    held: Role,
) -> Result<String, AllocError> {
    let code = encode(&Instr::Mem {
        op,
        ra,
        rb,
        disp: 0,
    });
    let stands = show::role(alloc, held)?;
    format!(in alloc; "{code:08x}{stands}")
}

fn kind_text(alloc: Global, kind: OpKind) -> Result<String, AllocError> {
    match kind {
        OpKind::Plain(instr) => format!(in alloc; "{:08x}", encode(&instr)),
        OpKind::Lit { ra, rb, target } => {
            memory_text(alloc, MemOp::Ldq, ra, rb, Role::Lit(target))
        }
        OpKind::GpHi { ra, rb, base } => {
            memory_text(alloc, MemOp::Ldah, ra, rb, Role::GpHi { base })
        }
        OpKind::GpLo { ra, rb, hi } => memory_text(alloc, MemOp::Lda, ra, rb, Role::GpLo { hi }),
        other => format!(in alloc; "{other:?}"),
    }
}

fn op_text(alloc: Global, op: Op) -> Result<String, AllocError> {
    let kind = kind_text(alloc, op.kind)?;
    format!(in alloc; " {}.{}/{kind}", op.place.obj, op.place.off)
}

/// The word at a place that ends a block.
fn end_text(alloc: Global, kind: &str, at: Place, instr: Instr) -> Result<String, AllocError> {
    let code = encode(&instr);
    format!(in alloc; " {kind} {}.{}/{code:08x}", at.obj, at.off)
}

fn cond_text(alloc: Global, at: Place, instr: Instr, to: Place) -> Result<String, AllocError> {
    let mut text = end_text(alloc, "cond", at, instr)?;
    let aim = format!(in alloc; " to {}.{}", to.obj, to.off)?;
    text.push_str(aim.as_str())?;
    Ok(text)
}

fn last_text(alloc: Global, last: Last) -> Result<String, AllocError> {
    match last {
        Last::Fall => String::from_str(alloc, " fall"),
        Last::Off => String::from_str(alloc, " off"),
        Last::Br { at, op, to, .. } => {
            format!(in alloc; " {op:?} {}.{} to {}.{}", at.obj, at.off, to.obj, to.off)
        }
        Last::Cond { at, instr, to } => cond_text(alloc, at, instr, to),
        Last::Call { at, op, ra, to } => {
            format!(in alloc;
                " call {op:?} {}.{} r{} to {}.{}",
                at.obj,
                at.off,
                ra.num(),
                to.obj,
                to.off
            )
        }
        Last::CallBy { at, instr } => end_text(alloc, "callby", at, instr),
        Last::JumpBy { at, instr } => end_text(alloc, "jumpby", at, instr),
    }
}

/// A block: `PLACE` or `PLACE opening`, its ops as `PLACE/WORD`, and how it ends.
fn push_block(alloc: Global, text: &mut String, graph: &Graph, b: BlockId) -> Result<(), AllocError>
    requires { IsTrue (is_live_block graph.now b) }
{
    text.push_str(show::place(alloc, graph.label(b))?.as_str())?;
    text.push_str(if graph.opening(b) { " opening" } else { "" })?;
    let mut at = graph.first_op(b);
    for _ in 0..u64::MAX {
        let Some(o) = at else {
            break;
        };
        text.push_str(op_text(alloc, graph.op(o))?.as_str())?;
        at = graph.next_op(o);
    }
    text.push_str(last_text(alloc, graph.last(b))?.as_str())
}

fn blocks_text(alloc: Global, graph: &Graph) -> Result<String, AllocError> {
    let mut text = String::new(alloc);
    let mut at = graph.first_block();
    for _ in 0..u64::MAX {
        let Some(b) = at else {
            break;
        };
        if !text.is_empty() {
            text.push_str("; ")?;
        }
        push_block(alloc, &mut text, graph, b)?;
        at = graph.next_block(b);
    }
    Ok(text)
}

/// `lift PROGRAM => BLOCK; BLOCK ..`: the blocks in order; a load of an address and the halves of a pair have the
/// displacement 0
pub fn lifted(alloc: Global, said: &str) -> Result<String, Bad> {
    let graph = graph_of(alloc, said)?;
    Ok(blocks_text(alloc, &graph)?)
}

/// `roots PROGRAM => PLACE ..`
pub fn roots(alloc: Global, said: &str) -> Result<String, Bad> {
    let graph = graph_of(alloc, said)?;
    let mut text = String::new(alloc);
    for root in graph.roots() {
        if !text.is_empty() {
            text.push_str(" ")?;
        }
        text.push_str(show::place(alloc, *root)?.as_str())?;
    }
    Ok(text)
}

/// `touched PROGRAM => PLACE` or `none`: the first label that is marked
pub fn touched(alloc: Global, said: &str) -> Result<String, Bad> {
    let graph = graph_of(alloc, said)?;
    match graph.next_touched(None) {
        Some(label) => Ok(show::place(alloc, label)?),
        None => Ok(String::from_str(alloc, "none")?),
    }
}
