// Callers of the operations on symbolic values.
ghost use Rattle.std.specs.Prelude.{◌≡◌};
ghost use Rattle.om_value.specs.Lift.{lifted, lifted_add, lifted_condition};

use om_alpha::{AluOp, Cond};
use om_value::{Value, lift, lift_add, lift_cond};

pub fn operation(op: AluOp, a: Value, a_size: u64, b: Value, b_size: u64) -> Option<Value>
    ensures { result ≡ lifted op a a_size b b_size }
{
    lift(op, a, a_size, b, b_size)
}

pub fn moved(a: Value, n: i64) -> Option<Value>
    ensures { result ≡ lifted_add a n }
{
    lift_add(a, n)
}

pub fn condition(c: Cond, a: Value, a_size: u64) -> Option<bool>
    ensures { result ≡ lifted_condition c a a_size }
{
    lift_cond(c, a, a_size)
}
