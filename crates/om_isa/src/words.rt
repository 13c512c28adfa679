// Words and instructions.
ghost use Rattle.std.specs.Prelude.{◌≡◌, ◌↔◌, ◌<◌, ◌^◌};
ghost use Rattle.om_isa.specs.Fields.{IsDisp, field, disp_bits};
ghost use Rattle.om_isa.specs.Words.{word_of, operand_bits, memory_word, branch_word, operate_word, memory_at, branch_at, jump_at, misc_at, operand_at, operate_at, move_at, fixed_at, instr_of, IsOperand, IsInstr, Encodes, WordsAreRead};

use crate::codes::{
    branch_number, branch_op, jump_number, jump_op, memory_number, memory_op, misc_number, misc_op,
    move_number, move_op, operate_number, operate_op,
};
use crate::fields::{Disp, Hint, Reg};
use crate::instr::{Instr, Opnd};

#[tactic(auto, unfolding(crate::specs::Words::memory_at))]
fn memory(w: u32) -> Option<Instr>
    ensures { result ≡ memory_at w }
{
    let op = memory_op(w >> 26)?;
    Some(Instr::Mem {
        op,
        ra: Reg::at(w, 21),
        rb: Reg::at(w, 16),
        disp: ((w % 0x1_0000) as u16).cast_signed(),
    })
}

#[tactic(auto, unfolding(crate::specs::Words::branch_at))]
fn branch(w: u32) -> Option<Instr>
    ensures { result ≡ branch_at w }
{
    let op = branch_op(w >> 26)?;
    Some(Instr::Branch {
        op,
        ra: Reg::at(w, 21),
        disp: Disp::at(w),
    })
}

#[tactic(auto, unfolding(crate::specs::Words::jump_at))]
fn jump(w: u32) -> Option<Instr>
    ensures { result ≡ jump_at w }
{
    if w >> 26 != 0x1a {
        return None;
    }
    let kind = jump_op((w >> 14) % 4)?;
    Some(Instr::Jump {
        kind,
        ra: Reg::at(w, 21),
        rb: Reg::at(w, 16),
        hint: Hint::at(w),
    })
}

#[tactic(auto, unfolding(crate::specs::Words::misc_at))]
fn misc(w: u32) -> Option<Instr>
    ensures { result ≡ misc_at w }
{
    if w >> 26 != 0x18 {
        return None;
    }
    let op = misc_op(w % 0x1_0000)?;
    Some(Instr::Misc {
        op,
        ra: Reg::at(w, 21),
        rb: Reg::at(w, 16),
    })
}

#[tactic(auto, unfolding(crate::specs::Words::operand_at))]
fn operand(w: u32) -> Option<Opnd>
    ensures { result ≡ operand_at w }
{
    if (w >> 12) % 2 == 1 {
        Some(Opnd::Lit(((w >> 13) % 256) as u8))
    } else if (w >> 13) % 8 == 0 {
        Some(Opnd::R(Reg::at(w, 16)))
    } else {
        None
    }
}

#[tactic(auto, unfolding(crate::specs::Words::operate_at))]
fn operate(w: u32) -> Option<Instr>
    ensures { result ≡ operate_at w }
{
    let rb = operand(w)?;
    let op = operate_op(w >> 26, (w >> 5) % 128)?;
    Some(Instr::Alu {
        op,
        ra: Reg::at(w, 21),
        rb,
        rc: Reg::at(w, 0),
    })
}

#[tactic(auto, unfolding(crate::specs::Words::move_at))]
fn conditional_move(w: u32) -> Option<Instr>
    ensures { result ≡ move_at w }
{
    if w >> 26 != 0x11 {
        return None;
    }
    let rb = operand(w)?;
    let cond = move_op((w >> 5) % 128)?;
    Some(Instr::Cmov {
        cond,
        ra: Reg::at(w, 21),
        rb,
        rc: Reg::at(w, 0),
    })
}

#[tactic(auto, unfolding(crate::specs::Words::fixed_at))]
fn fixed(w: u32) -> Option<Instr>
    ensures { result ≡ fixed_at w }
{
    match w {
        0x5fff_041f => Some(Instr::Fnop),
        0x00 => Some(Instr::Halt),
        0x83 => Some(Instr::Callsys),
        _ => None,
    }
}

/// The instruction of a word, format by format.
#[tactic(auto, unfolding(crate::specs::Words::instr_of))]
fn read_word(w: u32) -> Option<Instr>
    ensures { result ≡ instr_of w }
{
    if let Some(i) = memory(w) {
        return Some(i);
    }
    if let Some(i) = branch(w) {
        return Some(i);
    }
    if let Some(i) = jump(w) {
        return Some(i);
    }
    if let Some(i) = misc(w) {
        return Some(i);
    }
    if let Some(i) = conditional_move(w) {
        return Some(i);
    }
    if let Some(i) = operate(w) {
        return Some(i);
    }
    fixed(w)
}

/// The instruction of a 32-bit word (little-endian in memory), or `None` exactly where the word has none.
///
/// The formats are those of the Alpha Architecture Handbook, chapter 3, the numbers those of its
/// appendix C. Two choices are this project's own: an operate word with a register operand is read
/// only where bits 15 to 13 are zero, and of the PALcode calls only HALT and callsys are read.
#[tactic(auto, using(crate::proofs::Reading::none_exactly))]
pub fn decode(w: u32) -> Option<Instr>
    ensures value { result ≡ instr_of w }
    ensures exact { (i : Instr) → (result ≡ Some i) ↔ Encodes w i }
    ensures none { (result ≡ None) ↔ ((i : Instr) → ¬ Encodes w i) }
{
    read_word(w)
}

fn operand_number(rb: Opnd) -> u32
    ensures value { result ≡ operand_bits rb }
    ensures range { result < 2 ^ 9 }
    ensures field { IsOperand rb }
{
    match rb {
        Opnd::R(rb) => u32::from(rb.num()) * 16,
        Opnd::Lit(n) => u32::from(n) * 2 + 1,
    }
}

fn memory_form(opcode: u32, ra: Reg, rb: Reg, low: u32) -> u32
    requires opcode { opcode < 64 }
    requires low { low < 2 ^ 16 }
    ensures value { result ≡ memory_word opcode ra rb low }
    ensures ra { ra < 32 }
    ensures rb { rb < 32 }
{
    (opcode << 26) + (u32::from(ra.num()) << 21) + (u32::from(rb.num()) << 16) + low
}

fn branch_form(opcode: u32, ra: Reg, disp: Disp) -> u32
    requires { opcode < 64 }
    ensures value { result ≡ branch_word opcode ra (disp_bits disp) }
    ensures ra { ra < 32 }
    ensures disp { IsDisp disp }
{
    (opcode << 26) + (u32::from(ra.num()) << 21) + disp.bits()
}

fn operate_form(code: (u32, u32), ra: Reg, rb: Opnd, rc: Reg) -> u32
    requires opcode { code.0 < 64 }
    requires function { code.1 < 128 }
    ensures value { result ≡ operate_word code ra rb rc }
    ensures ra { ra < 32 }
    ensures rb { IsOperand rb }
    ensures rc { rc < 32 }
{
    (code.0 << 26)
        + (u32::from(ra.num()) << 21)
        + (operand_number(rb) << 12)
        + (code.1 << 5)
        + u32::from(rc.num())
}

/// The fields of an instruction side by side.
fn write_word(i: &Instr) -> u32
    ensures value { result ≡ word_of i.now }
    ensures fields { IsInstr i.now }
{
    match *i {
        Instr::Mem { op, ra, rb, disp } => memory_form(
            memory_number(op),
            ra,
            rb,
            u32::from(disp.cast_unsigned()),
        ),
        Instr::Jump { kind, ra, rb, hint } => {
            memory_form(
                0x1a,
                ra,
                rb,
                (jump_number(kind) << 14) + u32::from(hint.num()),
            )
        }
        Instr::Branch { op, ra, disp } => branch_form(branch_number(op), ra, disp),
        Instr::Alu { op, ra, rb, rc } => operate_form(operate_number(op), ra, rb, rc),
        Instr::Cmov { cond, ra, rb, rc } => operate_form((0x11, move_number(cond)), ra, rb, rc),
        Instr::Misc { op, ra, rb } => memory_form(0x18, ra, rb, misc_number(op)),
        Instr::Fnop => 0x5fff_041f,
        Instr::Halt => 0x00,
        Instr::Callsys => 0x83,
    }
}

/// The one word of an instruction; `decode` gives the instruction back.
pub fn encode(i: &Instr) -> u32
    ensures value { result ≡ word_of i.now }
    ensures exact { Encodes result i.now }
    ensures back { instr_of result ≡ Some i.now }
{
    write_word(i)
}

/// The law of words: a word has at most one instruction, and an instruction exactly one word.
///
/// It does nothing when it is called. Its contract is a law on the definitions `instr_of`, `word_of` and
/// `Encodes`, proved for all words and instructions, on which the crates above and readers may rely.
pub fn words_are_read()
    ensures { WordsAreRead }
{}
