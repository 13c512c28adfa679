// What an instruction reads and writes, as masks.
ghost use Rattle.std.specs.Prelude.{◌≡◌, ℕ};
ghost use Rattle.std.specs.Int.{bit_at};
ghost use Rattle.om_isa.specs.Registers.{regs_read, regs_written, reg_bit, mask_of, memory_reads, access_of, alu_reads, operand_regs, mask_onto, mask_bit, MasksAreLists};

use crate::fields::Reg;
use crate::instr::{Access, BrOp, Instr, MemOp, Opnd};
use om_alpha::AluOp;

fn bit(r: Reg) -> u32
    ensures { result ≡ reg_bit r }
{
    if r.num() == 31 { 0 } else { 1 << r.num() }
}

fn with_operand(m: u32, rb: Opnd) -> u32
    ensures { result ≡ mask_onto m (operand_regs rb) }
{
    match rb {
        Opnd::R(r) => m | bit(r),
        Opnd::Lit(_) => m,
    }
}

fn alu_mask(op: AluOp, ra: Reg, rb: Opnd) -> u32
    ensures { result ≡ mask_of (alu_reads op ra (operand_regs rb)) }
{
    match op {
        AluOp::Sextb | AluOp::Sextw => with_operand(0, rb),
        _ => with_operand(bit(ra), rb),
    }
}

/// What a memory operation does: compute an address, load, or store.
pub fn access_kind(op: MemOp) -> Access
    ensures { result ≡ access_of op }
{
    match op {
        MemOp::Lda | MemOp::Ldah => Access::Address,
        MemOp::Ldbu | MemOp::LdqU | MemOp::Ldwu | MemOp::Ldl | MemOp::Ldq => Access::Load,
        MemOp::Stw | MemOp::Stb | MemOp::StqU | MemOp::Stl | MemOp::Stq => Access::Store,
    }
}

fn memory_mask(op: MemOp, ra: Reg, rb: Reg) -> u32
    ensures { result ≡ mask_of (memory_reads (access_of op) ra rb) }
{
    match access_kind(op) {
        Access::Address => bit(rb),
        Access::Load => { if ra.num() == 31 { 0 } else { bit(rb) } }
        Access::Store => bit(ra) | bit(rb),
    }
}

fn mask_read(i: &Instr) -> u32
    ensures { result ≡ mask_of (regs_read i.now) }
{
    match *i {
        Instr::Mem { op, ra, rb, .. } => memory_mask(op, ra, rb),
        Instr::Jump { rb, .. } => bit(rb),
        Instr::Branch {
            op: BrOp::If(_),
            ra,
            ..
        } => bit(ra),
        Instr::Alu { op, ra, rb, .. } => alu_mask(op, ra, rb),
        Instr::Cmov { ra, rb, rc, .. } => with_operand(bit(ra) | bit(rc), rb),
        Instr::Callsys => 0x7_0001,
        Instr::Branch { .. } | Instr::Misc { .. } | Instr::Fnop | Instr::Halt => 0,
    }
}

/// The registers that an instruction reads, as a mask with bit r for register r; bit 31 is never set.
///
/// A conditional move reads Rc too, since it may leave it. SEXTB and SEXTW do not read Ra, barriers read
/// nothing, callsys reads v0 and a0 to a2 (r0, r16, r17, r18), and a load into r31 reads nothing; LDA and
/// LDAH are no loads here.
pub fn reads(i: &Instr) -> u32
    ensures value { result ≡ mask_of (regs_read i.now) }
    ensures bits { (r : ℕ) → bit_at result r ≡ mask_bit (regs_read i.now) r }
{
    mask_read(i)
}

fn mask_written(i: &Instr) -> u32
    ensures { result ≡ mask_of (regs_written i.now) }
{
    match *i {
        Instr::Mem {
            op: MemOp::Stw | MemOp::Stb | MemOp::StqU | MemOp::Stl | MemOp::Stq,
            ..
        } => 0,
        Instr::Mem { ra, .. } | Instr::Jump { ra, .. } => bit(ra),
        Instr::Branch {
            op: BrOp::If(_),
            ..
        } => 0,
        Instr::Branch { ra, .. } => bit(ra),
        Instr::Alu { rc, .. } | Instr::Cmov { rc, .. } => bit(rc),
        Instr::Callsys => 0x8_0001,
        Instr::Misc { .. } | Instr::Fnop | Instr::Halt => 0,
    }
}

/// The registers that an instruction writes, as a mask with bit r for register r; bit 31 is never set.
///
/// Callsys writes v0 and a3 (r0, r19). A conditional move writes Rc, whether its test holds or not.
pub fn writes(i: &Instr) -> u32
    ensures value { result ≡ mask_of (regs_written i.now) }
    ensures bits { (r : ℕ) → bit_at result r ≡ mask_bit (regs_written i.now) r }
{
    mask_written(i)
}

/// The law of masks: bit r of a mask says whether the list has register r, and bit 31 is never set.
///
/// It does nothing when it is called. Its contract is a law on the definition `mask_of`, proved for all
/// lists of registers, on which the crates above and readers may rely.
pub fn masks_are_lists()
    ensures { MasksAreLists }
{}
