// The instruction of a block's end.
ghost use Rattle.std.specs.Prelude.{◌≡◌, ◌<◌, Some, length};
ghost use Rattle.om_isa.specs.declared.instr.Instr.TheVariants.{Branch as BranchWord};
ghost use Rattle.om_encode.specs.Fitting.{branch_disp as disp_of_branch};
ghost use Rattle.om_encode.specs.Written.{FitsBranch, FitsCond, FitsLast, cond_instr as cond_of, last_instr as last_of};

use crate::words::branch_instr;
use om_graph::Last;
use om_isa::{BrOp, Instr, Reg};
use om_layout::Layout;
use om_value::Place;

// A branch at a place to another.
fn branch_to(layout: &Layout, at: Place, op: BrOp, ra: Reg, to: Place) -> Instr
    requires { FitsBranch layout.now at to }
    ensures { result ≡ BranchWord op ra (disp_of_branch layout.now at to) }
{
    branch_instr(op, ra, layout.position(at), layout.position(to))
}

// A conditional branch at a place to another.
fn cond_to(layout: &Layout, at: Place, instr: Instr, to: Place) -> Instr
    requires { FitsCond layout.now at instr to }
    ensures { result ≡ cond_of layout.now at instr to }
{
    match instr {
        Instr::Branch { op, ra, .. } => branch_to(layout, at, op, ra, to),
        _ => unreachable!(),
    }
}

/// The instruction at a block's end, or `None` exactly where control falls on or the text ends there.
pub(crate) fn last_instr(layout: &Layout, last: Last) -> Option<Instr>
    requires { FitsLast layout.now last }
    ensures { result ≡ last_of layout.now last }
{
    match last {
        Last::Fall => None,
        Last::Off => None,
        Last::Br { at, op, ra, to } => Some(branch_to(layout, at, op, ra, to)),
        Last::Cond { at, instr, to } => Some(cond_to(layout, at, instr, to)),
        Last::Call { at, op, ra, to } => Some(branch_to(layout, at, op, ra, to)),
        Last::CallBy { instr, .. } => Some(instr),
        Last::JumpBy { instr, .. } => Some(instr),
    }
}
