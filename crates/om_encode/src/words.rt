// The instructions of words that need an address.
ghost use Rattle.std.specs.Prelude.{◌≡◌, ◌<◌, ◌^◌, ℤ, pos, ◌-ℤ◌, FitsSigned};
ghost use Rattle.std.specs.Int.{w16};
ghost use Rattle.om_isa.specs.Fields.{IsDisp};
ghost use Rattle.om_isa.specs.declared.instr.Instr.TheVariants.{Mem, Branch};
ghost use Rattle.om_encode.specs.Written.{FitsOver, IsOver};

use crate::distances::branch_disp;
use om_isa::{BrOp, Instr, MemOp, Reg};

/// An instruction of the memory format.
pub(crate) fn memory_instr(op: MemOp, ra: Reg, rb: Reg, number: i64) -> Instr
    requires { FitsSigned w16 number }
    ensures { result ≡ Mem op ra rb number }
{
    let disp = number as i16;
    Instr::Mem { op, ra, rb, disp }
}

/// A branch from one image word to another.
pub(crate) fn branch_instr(op: BrOp, ra: Reg, at: u32, to: u32) -> Instr
    requires at { at < 2 ^ 24 }
    requires to { to < 2 ^ 24 }
    requires reach { IsDisp ((pos to -ℤ pos at) -ℤ pos 1) }
    ensures { result ≡ Branch op ra ((pos to -ℤ pos at) -ℤ pos 1) }
{
    let disp = branch_disp(at, to).unwrap();
    Instr::Branch { op, ra, disp }
}

/// The load or store of an instruction over another base, from which its own lies `start` bytes.
pub(crate) fn use_instr(instr: &Instr, base: Reg, start: i64) -> Instr
    requires { FitsOver instr.now start }
    ensures { IsOver instr.now base start result }
{
    match *instr {
        Instr::Mem {
            op,
            ra,
            rb: _,
            disp,
        } => memory_instr(op, ra, base, start + i64::from(disp)),
        _ => unreachable!(),
    }
}
