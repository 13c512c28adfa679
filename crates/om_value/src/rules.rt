// The rules, one function each: the value of an operation, or `None` where the rule is silent.
ghost use Rattle.std.specs.Prelude.{◌≡◌};
ghost use Rattle.om_value.specs.Lift.{on_numbers, moves_pointer, keeps_value, distance, compares, compares_pointers, above_small, low_bits, named_bytes, from_gp};

use crate::kinds::{
    adds, adds_scaled, asks_equal, extends_sign, inside, keeps_first, keeps_same, keeps_second,
    offsets_compare, subtracts, takes_bytes, target_value,
};
use crate::same::{same_place, same_region, same_value};
use crate::value::{Region, Value};
use om_alpha::{AluOp, Cmp, alu};

/// Numbers; a sign extension looks at the second operand alone.
#[tactic(auto, unfolding(crate::specs::Lift::on_numbers))]
pub(crate) fn numbers(op: AluOp, a: Value, b: Value) -> Option<Value>
    ensures { result ≡ on_numbers op a b }
{
    match (a, b) {
        (Value::Num(m), Value::Num(n)) => Some(Value::Num(alu(op, m, n))),
        (_, Value::Num(n)) if extends_sign(op) => Some(Value::Num(alu(op, 0, n))),
        _ => None,
    }
}

/// A pointer and a number: the offset changes.
#[tactic(auto, unfolding(crate::specs::Lift::moves_pointer))]
pub(crate) fn moved(op: AluOp, a: Value, b: Value) -> Option<Value>
    ensures { result ≡ moves_pointer op a b }
{
    match (a, b) {
        (Value::Ptr { region, off }, Value::Num(n)) if adds(op) || subtracts(op) => Some(
            Value::Ptr {
                region,
                off: alu(op, off, n),
            },
        ),
        (Value::Num(n), Value::Ptr { region, off }) if adds_scaled(op) => Some(Value::Ptr {
            region,
            off: alu(op, n, off),
        }),
        _ => None,
    }
}

/// A value and 0, or one value twice.
#[tactic(auto, unfolding(crate::specs::Lift::keeps_value))]
pub(crate) fn kept(op: AluOp, a: Value, b: Value) -> Option<Value>
    ensures { result ≡ keeps_value op a b }
{
    match (a, b) {
        (_, Value::Num(n)) => {
            if keeps_first(op) && n == 0 {
                Some(a)
            } else {
                None
            }
        }
        (Value::Num(n), _) => {
            if keeps_second(op) && n == 0 {
                Some(b)
            } else {
                None
            }
        }
        _ => {
            if keeps_same(op) && same_value(a, b) {
                Some(a)
            } else {
                None
            }
        }
    }
}

/// The distance of two pointers into one region.
#[tactic(auto, unfolding(crate::specs::Lift::distance))]
pub(crate) fn apart(op: AluOp, a: Value, b: Value) -> Option<Value>
    ensures { result ≡ distance op a b }
{
    match (a, b) {
        (Value::Ptr { region, off }, Value::Ptr { region: r, off: x })
            if subtracts(op) && same_region(region, r) => { Some(Value::Num(alu(op, off, x))) }
        _ => None,
    }
}

/// A pointer at offset `x` of a region of size `y`, compared with one at offset `v` of a region of size `z`.
#[tactic(auto, unfolding(crate::specs::Lift::compares_pointers))]
fn pointers(c: Cmp, r: Region, x: u64, y: u64, s: Region, v: u64, z: u64) -> Option<Value>
    ensures { result ≡ compares_pointers c r x y s v z }
{
    if same_region(r, s) {
        if asks_equal(c) || (x <= y && v <= z) {
            Some(Value::Num(u64::from(offsets_compare(c, x, v))))
        } else {
            None
        }
    } else if asks_equal(c) && x < y && v < z {
        Some(Value::Num(0))
    } else {
        None
    }
}

/// Comparisons of two pointers, or of two places in code.
#[tactic(auto, unfolding(crate::specs::Lift::compares))]
pub(crate) fn compared(
    c: Option<Cmp>,
    a: Value,
    a_size: u64,
    b: Value,
    b_size: u64,
) -> Option<Value>
    ensures { result ≡ compares c a a_size b b_size }
{
    let c = c?;
    match (a, b) {
        (Value::Ptr { region, off }, Value::Ptr { region: s, off: v }) => {
            pointers(c, region, off, a_size, s, v, b_size)
        }
        (Value::Code(p), Value::Code(q)) if asks_equal(c) && same_place(p, q) => Some(Value::Num(
            1,
        )),
        _ => None,
    }
}

/// Comparisons with a small number, which is below every address.
#[tactic(auto, unfolding(crate::specs::Lift::above_small))]
pub(crate) fn small_below(
    c: Option<Cmp>,
    a: Value,
    a_size: u64,
    b: Value,
    b_size: u64,
) -> Option<Value>
    ensures { result ≡ above_small c a a_size b b_size }
{
    let c = c?;
    match (a, b) {
        (Value::Num(n), _) => {
            if n < 0x10000 && inside(b, b_size) {
                Some(Value::Num(u64::from(!asks_equal(c))))
            } else {
                None
            }
        }
        (_, Value::Num(n)) if n < 0x10000 && inside(a, a_size) => Some(Value::Num(0)),
        _ => None,
    }
}

/// The low four bits of a pointer, and the pointer without them.
#[tactic(auto, unfolding(crate::specs::Lift::low_bits))]
pub(crate) fn low_four(op: AluOp, a: Value, b: Value) -> Option<Value>
    ensures { result ≡ low_bits op a b }
{
    match (a, b) {
        (Value::Ptr { region, off }, Value::Num(n)) if n < 16 => match op {
            AluOp::And => Some(Value::Num(off & n)),
            AluOp::Bic => Some(Value::Ptr {
                region,
                off: off & !n,
            }),
            _ => None,
        },
        (Value::Num(n), Value::Ptr { off, .. }) if n < 16 => match op {
            AluOp::And => Some(Value::Num(n & off)),
            _ => None,
        },
        _ => None,
    }
}

/// The bytes of a number that a pointer names by its low three bits.
#[tactic(auto, unfolding(crate::specs::Lift::named_bytes))]
pub(crate) fn bytes_named(op: AluOp, a: Value, b: Value) -> Option<Value>
    ensures { result ≡ named_bytes op a b }
{
    match (a, b) {
        (Value::Num(n), Value::Ptr { off, .. }) if takes_bytes(op) => Some(Value::Num(alu(
            op, n, off,
        ))),
        _ => None,
    }
}

/// A global pointer and the distance of a target from it.
#[tactic(auto, unfolding(crate::specs::Lift::from_gp))]
pub(crate) fn gp_plus(op: AluOp, a: Value, b: Value) -> Option<Value>
    ensures { result ≡ from_gp op a b }
{
    match (a, b) {
        (Value::Gp(o), Value::GpOff { obj, target }) if adds(op) && o == obj => Some(target_value(
            target,
        )),
        (Value::GpOff { obj, target }, Value::Gp(o)) if adds(op) && obj == o => Some(target_value(
            target,
        )),
        _ => None,
    }
}
