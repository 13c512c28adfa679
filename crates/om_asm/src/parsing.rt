// One instruction from its text.
ghost use Rattle.std.specs.Prelude.{◌≡◌};
ghost use Rattle.om_asm.specs.Parsing.{ParsesInstr};
ghost use Rattle.om_asm.specs.Reading.{answer_of};

use crate::instructions::{Said, read};
use om_isa::Instr;

// The instruction, where a text says one.
fn answer(told: Option<Said>) -> Option<Instr>
    ensures { result ≡ answer_of told }
{
    match told? {
        Said::Does(i) => Some(i),
        Said::Unfit => None,
    }
}

/// The instruction of which this is the text, spelled as a listing of `om list` has it: the name in lower case, one space, the
/// operands, as in `ldq r1,-8(r30)`, `addq r1,#8,r3`, `beq r1,3`, `jsr r26,(r27)` (Alpha Architecture Handbook, chapter 4,
/// in this project's spelling). `None` comes exactly where no instruction has this text.
///
/// Fields that a text does not show are usual: hint 1 of RET and 0 of other jumps, Ra r31 of SEXTB and SEXTW, Ra and Rb r0 of
/// barriers.
pub fn parse_instr(line: &[u8]) -> Option<Instr>
    ensures { ParsesInstr line.now result }
{
    answer(read(line))
}
