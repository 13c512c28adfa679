// Byte operations that take the number of a byte from an address.
ghost use Rattle.std.specs.Prelude.{◌≡◌, ◌%◌, List, ℕ};
ghost use Rattle.om_value.specs.Lift.{is_byte_operation};
ghost use Rattle.om_graph.specs.Uses.{with_literal};
ghost use Rattle.om_layout.specs.Layout.{LayoutView};
ghost use Rattle.om_passes.specs.Passed.{IsOfAProgram};
ghost use Rattle.om_addr.specs.Passing.{Reducing};
ghost use Rattle.om_addr.specs.Loads.{IsLoadOf, NoByteUseOf, off_of, is_byte_use, byte_kind};

use crate::loads::{Load, either, set, writes};
use om_alpha::AluOp;
use om_graph::{Graph, OpKind};
use om_isa::{Instr, Opnd, Reg};
use om_value::Target;

// Whether an operation takes the number of a byte from its second operand.
fn takes_byte(op: AluOp) -> bool
    ensures { result ≡ is_byte_operation op }
{
    matches!(
        op,
        AluOp::ExtLow(_)
            | AluOp::ExtHigh(_)
            | AluOp::InsLow(_)
            | AluOp::InsHigh(_)
            | AluOp::MskLow(_)
            | AluOp::MskHigh(_)
    )
}

// Whether an instruction takes the number of a byte from a register, and nothing else.
fn is_use(instr: &Instr, r: Reg) -> bool
    ensures { result ≡ is_byte_use r instr.now }
{
    match *instr {
        Instr::Alu {
            op,
            ra,
            rb: Opnd::R(rb),
            ..
        } => takes_byte(op) && rb == r && ra != r && r.num() != 31,
        _ => false,
    }
}

// The same with this literal for the register.
fn with_byte(instr: &Instr, byte: u8) -> Instr
    ensures { result ≡ with_literal byte instr.now }
{
    match *instr {
        Instr::Alu {
            op,
            ra,
            rb: Opnd::R(_),
            rc,
        } => Instr::Alu {
            op,
            ra,
            rb: Opnd::Lit(byte),
            rc,
        },
        other => other,
    }
}

// What an op becomes, where it is a byte use.
fn byte_use(kind: &OpKind, r: Reg, byte: u8) -> Option<OpKind>
    ensures { result ≡ byte_kind r byte kind.now }
{
    let OpKind::Plain(instr) = *kind else {
        return None;
    };
    if is_use(&instr, r) {
        Some(OpKind::Plain(with_byte(&instr, byte)))
    } else {
        None
    }
}

// The offset of a pointer.
fn pointer_off(target: &Target) -> Option<u64>
    ensures { result ≡ off_of target.now }
{
    match *target {
        Target::Ptr { off, .. } => Some(off),
        Target::Num(_) => None,
        Target::Code(_) => None,
    }
}

// The number of a byte in its quadword.
fn byte_of(off: u64) -> u8
    ensures { result ≡ off % 8 }
{
    (off % 8) as u8
}

// Gives each byte use of a load of a pointer the number of the byte as a literal. Whether there was one.
pub(crate) fn take_literals(g: &mut Graph, load: &Load) -> bool
    requires program { IsOfAProgram g.old }
    requires load { IsLoadOf g.old load.now }
    ensures passed { (l : LayoutView) → (masks : List ℕ) → Reducing l masks result g.old g.new }
    ensures nothing { NoByteUseOf g.new load.now }
    ensures load { IsLoadOf g.new load.now }
{
    let Some(off) = pointer_off(&load.target) else {
        return false;
    };
    if load.ra.num() == 31 {
        return false;
    }
    let byte = byte_of(off);
    g.is_graph();
    let mut changed = false;
    let mut next = g.next_op(load.id);
    while let Some(o) = next {
        let op = g.op(o);
        g.is_graph();
        g.is_numbered();
        changed = either(changed, set(g, o, byte_use(&op.kind, load.ra, byte)));
        g.is_graph();
        if writes(&op.kind, load.ra) {
            return changed;
        }
        next = g.next_op(o);
    }
    g.is_graph();
    changed
}
