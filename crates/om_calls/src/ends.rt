// Calls that end blocks.
ghost use Rattle.std.specs.Prelude.{◌≡◌};
ghost use Rattle.om_calls.specs.Ends.{jsr_with, jsr_at, jsr_of, bsr_at, bsr_of, end_with};

use om_graph::Last;
use om_isa::{BrOp, Instr, JumpOp, Reg};
use om_value::Place;

// A call by a register: its place and its link register.
#[derive(Clone, Copy)]
pub(crate) struct RegisterCall {
    pub(crate) at: Place,
    pub(crate) ra: Reg,
}

// A call of a place: its own place, its link register and where it goes.
#[derive(Clone, Copy)]
pub(crate) struct PlaceCall {
    pub(crate) at: Place,
    pub(crate) ra: Reg,
    pub(crate) to: Place,
}

fn by_kind(at: Place, kind: JumpOp, ra: Reg) -> Option<RegisterCall>
    ensures { result ≡ jsr_with at kind ra }
{
    match kind {
        JumpOp::Jsr => Some(RegisterCall { at, ra }),
        _ => None,
    }
}

fn in_jump(at: Place, instr: &Instr) -> Option<RegisterCall>
    ensures { result ≡ jsr_at at instr.now }
{
    match *instr {
        Instr::Jump { kind, ra, .. } => by_kind(at, kind, ra),
        _ => None,
    }
}

// The JSR that ends a block.
pub(crate) fn register_call(last: &Last) -> Option<RegisterCall>
    ensures { result ≡ jsr_of last.now }
{
    match *last {
        Last::CallBy { at, instr } => in_jump(at, &instr),
        Last::JumpBy { at, instr } => in_jump(at, &instr),
        _ => None,
    }
}

fn in_branch(at: Place, op: BrOp, ra: Reg, to: Place) -> Option<PlaceCall>
    ensures { result ≡ bsr_at at op ra to }
{
    match op {
        BrOp::Bsr => Some(PlaceCall { at, ra, to }),
        _ => None,
    }
}

// The BSR that ends a block.
pub(crate) fn place_call(last: &Last) -> Option<PlaceCall>
    ensures { result ≡ bsr_of last.now }
{
    match *last {
        Last::Br { at, op, ra, to } => in_branch(at, op, ra, to),
        Last::Call { at, op, ra, to } => in_branch(at, op, ra, to),
        _ => None,
    }
}

// A BSR as the end of a block.
pub(crate) fn ended_by(call: PlaceCall) -> Last
    ensures { result ≡ end_with call }
{
    let PlaceCall { at, ra, to } = call;
    let op = BrOp::Bsr;
    if ra.num() == 31 {
        Last::Br { at, op, ra, to }
    } else {
        Last::Call { at, op, ra, to }
    }
}
