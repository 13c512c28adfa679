// Operands of instructions.
ghost use Rattle.std.specs.Prelude.{◌≡◌};
ghost use Rattle.om_asm.specs.Reading.{register_at, closed_at, base_at, address_at, operand_at, result_at, opnd_of};

use crate::cutting::{behind, cut};
use crate::numbers::{Number, decimal, decimal_value, is_plain};
use om_isa::{Opnd, Reg};

/// The second operand of an operate instruction, whose literal may be no byte.
#[derive(Clone, Copy, PartialEq, Eq, Debug)]
pub enum Operand {
    Register(Reg),
    Literal(Number),
}

/// The register that a text is.
#[tactic(auto, unfolding(crate::specs::Reading::register_at))]
pub(crate) fn register(text: &[u8]) -> Option<Reg>
    ensures { result ≡ register_at text.now }
{
    let digits = behind(text, b'r')?;
    if !is_plain(digits) {
        return None;
    }
    let number = decimal_value(digits);
    if number >= 32 {
        return None;
    }
    Reg::new(number as u8)
}

// A register before the parenthesis that ends the text.
fn closed(text: &[u8]) -> Option<Reg>
    ensures { result ≡ closed_at text.now }
{
    let (name, rest) = cut(text, b')')?;
    if !rest.is_empty() {
        return None;
    }
    register(name)
}

/// A register in parentheses.
#[tactic(auto, unfolding(crate::specs::Reading::base_at))]
pub(crate) fn base(text: &[u8]) -> Option<Reg>
    ensures { result ≡ base_at text.now }
{
    let rest = behind(text, b'(')?;
    closed(rest)
}

/// A number, and a register in parentheses.
#[tactic(auto, unfolding(crate::specs::Reading::address_at))]
pub(crate) fn address(text: &[u8]) -> Option<(Number, Reg)>
    ensures { result ≡ address_at text.now }
{
    let (front, rest) = cut(text, b'(')?;
    let displacement = decimal(front)?;
    let register = closed(rest)?;
    Some((displacement, register))
}

#[tactic(auto, unfolding(crate::specs::Reading::operand_at))]
fn second(text: &[u8]) -> Option<Operand>
    ensures { result ≡ operand_at text.now }
{
    match behind(text, b'#') {
        Some(literal) => {
            let value = decimal(literal)?;
            Some(Operand::Literal(value))
        }
        None => {
            let register = register(text)?;
            Some(Operand::Register(register))
        }
    }
}

/// The last two operands of an operate instruction.
#[tactic(auto, unfolding(crate::specs::Reading::result_at))]
pub(crate) fn result(text: &[u8]) -> Option<(Operand, Reg)>
    ensures { result ≡ result_at text.now }
{
    let (front, rest) = cut(text, b',')?;
    let rb = second(front)?;
    let rc = register(rest)?;
    Some((rb, rc))
}

impl Operand {
    /// The operand, where a literal is a byte.
    pub(crate) fn fitting(self) -> Option<Opnd>
        ensures { result ≡ opnd_of self }
    {
        match self {
            Operand::Register(register) => Some(Opnd::R(register)),
            Operand::Literal(n) => {
                if n.size > if n.minus { 0 } else { 255 } {
                    return None;
                }
                Some(Opnd::Lit(n.size as u8))
            }
        }
    }
}
