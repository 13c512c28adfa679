// Callers of the decoder, the encoder and what is told of an instruction.
ghost use Rattle.std.specs.Prelude.{◌≡◌, Some};
ghost use Rattle.om_isa.specs.Words.{instr_of};
ghost use Rattle.om_isa.specs.Registers.{mask_of, regs_read};
ghost use Rattle.om_isa.specs.Target.{target_of};

use om_isa::{Instr, branch_target, decode, encode, reads};

pub fn instruction(word: u32) -> Option<Instr>
    ensures { result ≡ instr_of word }
{
    decode(word)
}

pub fn word(i: &Instr) -> u32
    ensures { instr_of result ≡ Some i.now }
{
    encode(i)
}

pub fn mask_read(i: &Instr) -> u32
    ensures { result ≡ mask_of (regs_read i.now) }
{
    reads(i)
}

pub fn target(i: &Instr, place: u64) -> Option<u64>
    ensures { result ≡ target_of i.now place }
{
    branch_target(i, place)
}
