// What a text of an instruction says.
ghost use Rattle.std.specs.Prelude.{◌≡◌, ◌<◌};
ghost use Rattle.om_asm.specs.Statements.{jump_hint};
ghost use Rattle.om_asm.specs.Reading.{memory_made, branch_made, operate_made, move_made, said as said_of, memory_said, jump_said, branch_said, extension_said, three_said, operate_said, move_said, said_with, said_alone, said_in};

use crate::cutting::cut;
use crate::forms::{Form, form_of};
use crate::numbers::{Number, decimal};
use crate::operands::{Operand, address, base, register, result};
use om_alpha::{AluOp, Cond};
use om_isa::{BrOp, Disp, Hint, Instr, JumpOp, MemOp, MiscOp, Reg};

/// What a text of an instruction says.
#[derive(Clone, Copy, PartialEq, Eq, Debug)]
pub enum Said {
    /// This instruction.
    Does(Instr),
    /// One whose displacement or literal is outside its field.
    Unfit,
}

fn told(instr: Option<Instr>) -> Said
    ensures { result ≡ said_of instr }
{
    match instr {
        Some(i) => Said::Does(i),
        None => Said::Unfit,
    }
}

fn memory_of(op: MemOp, ra: Reg, n: Number, rb: Reg) -> Option<Instr>
    ensures { result ≡ memory_made op ra n rb }
{
    let disp = n.within(32_768, 32_767)?;
    Some(Instr::Mem {
        op,
        ra,
        rb,
        disp: disp as i16,
    })
}

fn branch_of(op: BrOp, ra: Reg, n: Number) -> Option<Instr>
    ensures { result ≡ branch_made op ra n }
{
    let value = n.within(1_048_576, 1_048_575)?;
    let disp = Disp::new(value)?;
    Some(Instr::Branch { op, ra, disp })
}

fn operate_of(op: AluOp, ra: Reg, operand: Operand, rc: Reg) -> Option<Instr>
    ensures { result ≡ operate_made op ra operand rc }
{
    let rb = operand.fitting()?;
    Some(Instr::Alu { op, ra, rb, rc })
}

fn move_of(cond: Cond, ra: Reg, operand: Operand, rc: Reg) -> Option<Instr>
    ensures { result ≡ move_made cond ra operand rc }
{
    let rb = operand.fitting()?;
    Some(Instr::Cmov { cond, ra, rb, rc })
}

#[tactic(auto, unfolding(crate::specs::Reading::memory_said))]
fn memory(op: MemOp, text: &[u8]) -> Option<Said>
    ensures { result ≡ memory_said op text.now }
{
    let (first, rest) = cut(text, b',')?;
    let ra = register(first)?;
    let (n, rb) = address(rest)?;
    Some(told(memory_of(op, ra, n, rb)))
}

// The hint of a jump whose text does not show it.
fn hint(kind: JumpOp) -> Hint
    ensures { result ≡ jump_hint kind }
{
    let number = match kind {
        JumpOp::Ret => 1,
        _ => 0,
    };
    let Some(hint) = Hint::new(number) else {
        unreachable!()
    };
    hint
}

#[tactic(auto, unfolding(crate::specs::Reading::jump_said))]
fn jump(kind: JumpOp, text: &[u8]) -> Option<Said>
    ensures { result ≡ jump_said kind text.now }
{
    let (first, rest) = cut(text, b',')?;
    let ra = register(first)?;
    let rb = base(rest)?;
    Some(Said::Does(Instr::Jump {
        kind,
        ra,
        rb,
        hint: hint(kind),
    }))
}

#[tactic(auto, unfolding(crate::specs::Reading::branch_said))]
fn branch(op: BrOp, text: &[u8]) -> Option<Said>
    ensures { result ≡ branch_said op text.now }
{
    let (first, rest) = cut(text, b',')?;
    let ra = register(first)?;
    let n = decimal(rest)?;
    Some(told(branch_of(op, ra, n)))
}

// A register by its number, below 32.
fn numbered(number: u8) -> Reg
    requires { number < 32 }
    ensures { result ≡ number }
{
    let Some(register) = Reg::new(number) else {
        unreachable!()
    };
    register
}

#[tactic(auto, unfolding(crate::specs::Reading::extension_said))]
fn extension(op: AluOp, text: &[u8]) -> Option<Said>
    ensures { result ≡ extension_said op text.now }
{
    let (rb, rc) = result(text)?;
    Some(told(operate_of(op, numbered(31), rb, rc)))
}

#[tactic(auto, unfolding(crate::specs::Reading::three_said))]
fn three(op: AluOp, text: &[u8]) -> Option<Said>
    ensures { result ≡ three_said op text.now }
{
    let (first, rest) = cut(text, b',')?;
    let ra = register(first)?;
    let (rb, rc) = result(rest)?;
    Some(told(operate_of(op, ra, rb, rc)))
}

fn operate(op: AluOp, text: &[u8]) -> Option<Said>
    ensures { result ≡ operate_said op text.now }
{
    match op {
        AluOp::Sextb | AluOp::Sextw => extension(op, text),
        _ => three(op, text),
    }
}

#[tactic(auto, unfolding(crate::specs::Reading::move_said))]
fn conditional_move(cond: Cond, text: &[u8]) -> Option<Said>
    ensures { result ≡ move_said cond text.now }
{
    let (first, rest) = cut(text, b',')?;
    let ra = register(first)?;
    let (rb, rc) = result(rest)?;
    Some(told(move_of(cond, ra, rb, rc)))
}

// An instruction of a form, by its operands.
fn with(form: Form, text: &[u8]) -> Option<Said>
    ensures { result ≡ said_with form text.now }
{
    match form {
        Form::Memory(op) => memory(op, text),
        Form::Jump(kind) => jump(kind, text),
        Form::Branch(op) => branch(op, text),
        Form::Operate(op) => operate(op, text),
        Form::Move(cond) => conditional_move(cond, text),
        Form::Barrier(_) | Form::Fnop | Form::Halt | Form::Callsys => None,
    }
}

fn barrier(op: MiscOp) -> Instr
    ensures { result ≡ Instr.Misc op 0 0 }
{
    Instr::Misc {
        op,
        ra: numbered(0),
        rb: numbered(0),
    }
}

// An instruction of a form that has no operands.
fn alone(form: Form) -> Option<Said>
    ensures { result ≡ said_alone form }
{
    match form {
        Form::Barrier(op) => Some(Said::Does(barrier(op))),
        Form::Fnop => Some(Said::Does(Instr::Fnop)),
        Form::Halt => Some(Said::Does(Instr::Halt)),
        Form::Callsys => Some(Said::Does(Instr::Callsys)),
        _ => None,
    }
}

/// What a text says, where it is an instruction but for the size of its number.
#[tactic(auto, unfolding(crate::specs::Reading::said_in))]
pub(crate) fn read(text: &[u8]) -> Option<Said>
    ensures { result ≡ said_in text.now }
{
    match cut(text, b' ') {
        Some((name, operands)) => {
            let form = form_of(name)?;
            with(form, operands)
        }
        None => {
            let form = form_of(text)?;
            alone(form)
        }
    }
}
