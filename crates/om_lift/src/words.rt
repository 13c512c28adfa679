// What a word becomes: an op of its block, or the block's end.
ghost use Rattle.std.specs.Prelude.{◌≡◌, true};
ghost use Rattle.om_isa.specs.declared.instr.Instr.TheVariants.{Branch as BranchWord, Jump as JumpWord};
ghost use Rattle.om_value.specs.declared.value.Place.{Place as AnyPlace};
ghost use Rattle.om_prog.specs.declared.item.Role.{Role as AnyRole};
ghost use Rattle.om_prog.specs.declared.item.Role.TheVariants.{To};
ghost use Rattle.om_graph.specs.Lifted.{op_of_item, kind_of, branch_last, jump_last, last_of_word};

use om_graph::{Last, Op, OpKind};
use om_isa::{BrOp, Disp, Hint, Instr, JumpOp, Reg};
use om_prog::{Item, Role};
use om_value::Place;

// What a word that ends no block does.
fn op_kind(role: Role, instr: Instr) -> OpKind
    ensures { result ≡ kind_of role instr }
{
    match (role, instr) {
        (Role::Lit(target), Instr::Mem { ra, rb, .. }) => OpKind::Lit { ra, rb, target },
        (Role::GpHi { base }, Instr::Mem { ra, rb, .. }) => OpKind::GpHi { ra, rb, base },
        (Role::GpLo { hi }, Instr::Mem { ra, rb, .. }) => OpKind::GpLo { ra, rb, hi },
        _ => OpKind::Plain(instr),
    }
}

/// The op of a word that ends no block.
pub(crate) fn op_at(at: Place, item: Item) -> Op
    ensures { result ≡ op_of_item at item }
{
    Op {
        place: at,
        kind: op_kind(item.role, item.instr),
    }
}

// The end of a block whose last word is a branch to a place.
fn last_of_branch(at: Place, op: BrOp, ra: Reg, disp: Disp, to: Place) -> Last
    ensures { result ≡ branch_last at (BranchWord op ra disp) op ra to }
{
    if let BrOp::If(_) = op {
        let instr = Instr::Branch { op, ra, disp };
        return Last::Cond { at, instr, to };
    }
    if ra.num() == 31 {
        Last::Br { at, op, ra, to }
    } else {
        Last::Call { at, op, ra, to }
    }
}

// The end of a block whose last word is a jump.
fn last_of_jump(at: Place, kind: JumpOp, ra: Reg, rb: Reg, hint: Hint) -> Last
    ensures { result ≡ jump_last at (JumpWord kind ra rb hint) ra }
{
    let instr = Instr::Jump { kind, ra, rb, hint };
    if ra.num() == 31 {
        Last::JumpBy { at, instr }
    } else {
        Last::CallBy { at, instr }
    }
}

// The end of a block whose last word has no place to go to.
fn last_of_instr(at: Place, instr: Instr) -> Last
    ensures { (role : AnyRole) → ((to : AnyPlace) → role ≡ To to → ⊥) → result ≡ last_of_word true at role instr }
{
    let Instr::Jump { kind, ra, rb, hint } = instr else {
        return Last::Off;
    };
    last_of_jump(at, kind, ra, rb, hint)
}

// The end of a block whose last word stands for a branch to a place.
fn last_of_target(at: Place, instr: Instr, to: Place) -> Last
    ensures { result ≡ last_of_word true at (To to) instr }
{
    match instr {
        Instr::Branch { op, ra, disp } => last_of_branch(at, op, ra, disp, to),
        Instr::Jump { kind, ra, rb, hint } => last_of_jump(at, kind, ra, rb, hint),
        _ => Last::Off,
    }
}

/// The end of a block whose last word is this, where the text ends behind it.
pub(crate) fn last_at(at: Place, role: Role, instr: Instr) -> Last
    ensures { result ≡ last_of_word true at role instr }
{
    match role {
        Role::To(to) => last_of_target(at, instr, to),
        _ => last_of_instr(at, instr),
    }
}
