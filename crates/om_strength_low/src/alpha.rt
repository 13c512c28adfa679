// Callers of the operations on numbers.
ghost use Rattle.std.specs.Prelude.{◌≡◌};
ghost use Rattle.om_alpha.specs.Arithmetic.{alu_result, overflows as is_over, holds as holds_of};

use om_alpha::{AluOp, Cond, alu, holds, overflows};

pub fn computed(op: AluOp, a: u64, b: u64) -> u64
    ensures { result ≡ alu_result op a b }
{
    alu(op, a, b)
}

pub fn is_too_large(op: AluOp, a: u64, b: u64) -> bool
    ensures { result ≡ is_over op a b }
{
    overflows(op, a, b)
}

pub fn is_below_zero(a: u64) -> bool
    ensures { result ≡ holds_of Cond.Lt a }
{
    holds(Cond::Lt, a)
}
