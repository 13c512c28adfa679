// Where branches go.
ghost use Rattle.std.specs.Prelude.{◌≡◌};
ghost use Rattle.om_isa.specs.Target.{displaced, target_of};

use crate::fields::Disp;
use crate::instr::Instr;

/// The place that a displacement in words leads to.
fn displaced_by(place: u64, disp: Disp) -> u64
    ensures { result ≡ displaced place disp }
{
    let bytes = i64::from(disp.num()).cast_unsigned().wrapping_mul(4);
    place.wrapping_add(4).wrapping_add(bytes)
}

/// Where a branch at the address `place` goes: `place + 4 + 4 * disp` modulo 2^64, or `None` exactly
/// where the instruction is no branch (Alpha Architecture Handbook, chapter 3, "Branch Instruction Format").
pub fn branch_target(i: &Instr, place: u64) -> Option<u64>
    ensures { result ≡ target_of i.now place }
{
    match *i {
        Instr::Branch { disp, .. } => Some(displaced_by(place, disp)),
        _ => None,
    }
}
