// Base uses of near loads, which can do without the load.
ghost use Rattle.std.specs.Prelude.{◌≡◌, ◌<◌, ◌==◌, ◌||◌, not, List, ℕ, Some};
ghost use Rattle.om_isa.specs.Registers.{mask_of};
ghost use Rattle.om_blocks.specs.Effects.{kind_writes};
ghost use Rattle.om_uses.specs.Scans.{has_bit as mask_has};
ghost use Rattle.om_layout.specs.Layout.{LayoutView};
ghost use Rattle.om_passes.specs.Passed.{IsOfAProgram};
ghost use Rattle.om_addr.specs.Passing.{Reducing};
ghost use Rattle.om_addr.specs.Loads.{IsLoadOf, HasPointer};
ghost use Rattle.om_addr.specs.Near.{IsSaid, IsTame, NoBaseUseOf, serves as access_serves, is_base_use, disp_in, base_kind, is_small as near_is_small};

use crate::loads::{Load, either, set, writes};
use crate::near::{Pointer, is_small};
use om_graph::{Graph, OpKind};
use om_isa::{Access, Instr, Reg, access_kind};

// Whether an access reads its base, and does not store it.
fn serves(access: Access, ra: Reg, r: Reg) -> bool
    ensures { result ≡ access_serves access ra r }
{
    match access {
        Access::Address => false,
        Access::Load => ra.num() != 31,
        Access::Store => ra != r,
    }
}

// Whether an instruction is a load or store over a register that it does not store.
pub(crate) fn is_base(instr: &Instr, r: Reg) -> bool
    ensures { result ≡ is_base_use r instr.now }
{
    match *instr {
        Instr::Mem { op, ra, rb, .. } => {
            rb == r && r.num() != 31 && serves(access_kind(op), ra, r)
        }
        _ => false,
    }
}

// The displacement of a load or store.
pub(crate) fn disp_of(instr: &Instr) -> i16
    ensures { result ≡ disp_in instr.now }
{
    match *instr {
        Instr::Mem { disp, .. } => disp,
        _ => 0,
    }
}

// What an op becomes, where it is a base use that can be over the base of the load.
fn base_use(kind: &OpKind, load: &Load, at: &Pointer) -> Option<OpKind>
    requires { IsTame at.now }
    ensures { result ≡ base_kind load.now at.now kind.now }
{
    let OpKind::Plain(instr) = *kind else {
        return None;
    };
    if is_base(&instr, load.ra) && at.reaches(disp_of(&instr)) {
        Some(OpKind::UseGp {
            instr,
            gp: load.rb,
            target: load.target,
        })
    } else {
        None
    }
}

// Whether no use of a load can be over its base: it sets r31 or that base, or is not near.
fn is_barred(load: &Load, at: &Pointer) -> bool
    ensures barred { result ≡ ((load.now.ra == 31) || ((load.now.ra == load.now.rb) || not (near_is_small at.now.distance))) }
    ensures first { load.now.ra < 32 }
    ensures second { load.now.rb < 32 }
{
    let ra = load.ra.num();
    let rb = load.rb.num();
    ra == 31 || ra == rb || !is_small(at.distance)
}

// Whether an op writes the register of a load or its base, other than r31.
fn writes_either(kind: &OpKind, load: &Load) -> bool
    ensures { result ≡ (mask_has (mask_of (kind_writes kind.now)) load.now.ra || mask_has (mask_of (kind_writes kind.now)) load.now.rb) }
{
    writes(kind, load.ra) || writes(kind, load.rb)
}

// Lets each base use of a near load, to which the base of the load still stands in its register, take that base itself.
// Whether there was one.
pub(crate) fn take_pointers(g: &mut Graph, load: &Load, at: &Pointer) -> bool
    requires program { IsOfAProgram g.old }
    requires load { IsLoadOf g.old load.now }
    requires pointer { HasPointer load.now }
    requires tame { IsTame at.now }
    ensures passed { (l : LayoutView) → IsSaid l load.now (Some at.now) → (masks : List ℕ) →
        Reducing l masks result g.old g.new }
    ensures nothing { (l : LayoutView) → IsSaid l load.now (Some at.now) →
        NoBaseUseOf l g.new load.now }
    ensures load { IsLoadOf g.new load.now }
{
    if is_barred(load, at) {
        return false;
    }
    g.is_graph();
    let mut changed = false;
    let mut next = g.next_op(load.id);
    while let Some(o) = next {
        let op = g.op(o);
        g.is_graph();
        g.is_numbered();
        changed = either(changed, set(g, o, base_use(&op.kind, load, at)));
        g.is_graph();
        if writes_either(&op.kind, load) {
            return changed;
        }
        next = g.next_op(o);
    }
    g.is_graph();
    changed
}
