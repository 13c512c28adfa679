// What a machine is loaded with: the instructions of a text, and the registers at the start.
ghost use Rattle.std.specs.Prelude.{◌≡◌, ◌<◌, ◌+◌, ◌++◌, ◌∷◌, [], ℕ, IfOk, OnOk, All, true, map, slice_index, Some, is_some};
ghost use Rattle.om_isa.specs.Words.{instr_of};
ghost use Rattle.om_image.specs.NumState.{with_register, stack_base, stack_top};

use om_io::NoMemory;
use om_isa::{Instr, Opnd, decode};
use std::alloc::Global;

const STACK_START: u64 = 0x1_1fff_ffc0;

/// The instruction of a word that has one.
fn decoded(word: u32) -> Instr
    requires { is_some (instr_of word) ≡ true }
    ensures { instr_of word ≡ Some result }
{
    let Some(instr) = decode(word) else {
        unreachable!()
    };
    instr
}

fn push_to<T: Drop>(items: &mut Vec<T>, item: T) -> Result<(), NoMemory>
    ensures { OnOk result (items.new.items ≡ items.old.items ++ item ∷ []) }
{
    items.push(item)?;
    Ok(())
}

/// Puts the instructions of the words behind those that are there.
fn push_code(code: &mut Vec<Instr>, text: &[u32]) -> Result<(), NoMemory>
    requires { All (λ w. is_some (instr_of w) ≡ true) text.now }
    ensures { OnOk result (map Some code.new.items ≡ map Some code.old.items ++ map instr_of text.now) }
{
    // Names the type of an operand, which the check of this loop must be told.
    let _operand: Option<Opnd> = None;
    for word in text {
        push_to(code, decoded(*word))?;
    }
    Ok(())
}

/// The instructions of words that all have one.
pub(crate) fn read_code(alloc: Global, text: &[u32]) -> Result<Vec<Instr>, NoMemory>
    requires { All (λ w. is_some (instr_of w) ≡ true) text.now }
    ensures { IfOk result (λ v. map Some v.items ≡ map instr_of text.now) }
{
    let mut code = Vec::with_capacity(alloc, text.len())?;
    push_code(&mut code, text)?;
    Ok(code)
}

/// Gives a register a number; what is written to register 31 is lost.
pub(crate) fn set_register(registers: &mut [u64; 32], r: u8, n: u64)
    requires { r < 32 }
    ensures { (x : ℕ) → slice_index registers.new x ≡ with_register (slice_index registers.old) r n x }
{
    if r != 31 {
        registers[r as usize] = n;
    }
}

/// The registers at the start of a run.
pub(crate) fn first_registers(entry: u64, gp: u64) -> [u64; 32]
    ensures { (r : ℕ) → slice_index result r ≡ with_register (with_register (with_register (λ k. 0) 27 entry) 29 gp) 30 (stack_base + stack_top) r }
{
    let mut registers = [0u64; 32];
    set_register(&mut registers, 27, entry);
    set_register(&mut registers, 29, gp);
    set_register(&mut registers, 30, STACK_START);
    registers
}
