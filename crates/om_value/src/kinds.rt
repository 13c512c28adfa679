// Operations and values by what the rules ask of them.
ghost use Rattle.std.specs.Prelude.{◌≡◌, ◌||◌};
ghost use Rattle.om_value.specs.Lift.{value_of, is_add, is_subtract, is_scaled_add, is_and, is_or, is_xor, is_sign_extension, is_byte_operation, is_equal, compares_offsets, comparison, is_inside};

use crate::value::{Target, Value};
use om_alpha::{AluOp, Cmp, Scale, Width};

pub(crate) fn adds(op: AluOp) -> bool
    ensures { result ≡ is_add op }
{
    matches!(op, AluOp::Add(Scale::One, Width::Quad))
}

pub(crate) fn subtracts(op: AluOp) -> bool
    ensures { result ≡ is_subtract op }
{
    matches!(op, AluOp::Sub(Scale::One, Width::Quad))
}

pub(crate) fn adds_scaled(op: AluOp) -> bool
    ensures { result ≡ is_scaled_add op }
{
    matches!(op, AluOp::Add(_, Width::Quad))
}

pub(crate) fn extends_sign(op: AluOp) -> bool
    ensures { result ≡ is_sign_extension op }
{
    matches!(op, AluOp::Sextb | AluOp::Sextw)
}

pub(crate) fn takes_bytes(op: AluOp) -> bool
    ensures { result ≡ is_byte_operation op }
{
    matches!(
        op,
        AluOp::ExtLow(_)
            | AluOp::ExtHigh(_)
            | AluOp::InsLow(_)
            | AluOp::InsHigh(_)
            | AluOp::MskLow(_)
            | AluOp::MskHigh(_)
    )
}

/// Whether the operation leaves its first operand where the second is 0.
pub(crate) fn keeps_first(op: AluOp) -> bool
    ensures { result ≡ (is_add op || is_or op || is_xor op || is_subtract op) }
{
    matches!(
        op,
        AluOp::Add(Scale::One, Width::Quad)
            | AluOp::Bis
            | AluOp::Xor
            | AluOp::Sub(Scale::One, Width::Quad)
    )
}

/// Whether it leaves its second operand where the first is 0.
pub(crate) fn keeps_second(op: AluOp) -> bool
    ensures { result ≡ (is_add op || is_or op || is_xor op) }
{
    matches!(
        op,
        AluOp::Add(Scale::One, Width::Quad) | AluOp::Bis | AluOp::Xor
    )
}

/// Whether it leaves a value that both operands are.
pub(crate) fn keeps_same(op: AluOp) -> bool
    ensures { result ≡ (is_or op || is_and op) }
{
    matches!(op, AluOp::Bis | AluOp::And)
}

pub(crate) fn compares_with(op: AluOp) -> Option<Cmp>
    ensures { result ≡ comparison op }
{
    match op {
        AluOp::Compare(c) => Some(c),
        _ => None,
    }
}

pub(crate) fn asks_equal(c: Cmp) -> bool
    ensures { result ≡ is_equal c }
{
    matches!(c, Cmp::Eq)
}

/// A comparison of two offsets of one region.
pub(crate) fn offsets_compare(c: Cmp, x: u64, y: u64) -> bool
    ensures { result ≡ compares_offsets c x y }
{
    match c {
        Cmp::Eq => x == y,
        Cmp::Lt | Cmp::Ult => x < y,
        Cmp::Le | Cmp::Ule => x <= y,
    }
}

/// Whether the value is a place in code, or a pointer into a region of this size or to its end.
pub(crate) fn inside(v: Value, size: u64) -> bool
    ensures { result ≡ is_inside v size }
{
    match v {
        Value::Ptr { off, .. } => off <= size,
        Value::Code(_) => true,
        _ => false,
    }
}

pub(crate) fn target_value(t: Target) -> Value
    ensures { result ≡ value_of t }
{
    match t {
        Target::Num(n) => Value::Num(n),
        Target::Ptr { region, off } => Value::Ptr { region, off },
        Target::Code(p) => Value::Code(p),
    }
}
