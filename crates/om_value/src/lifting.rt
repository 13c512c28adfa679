// Operations, sums and tests on symbolic values.
ghost use Rattle.std.specs.Prelude.{◌≡◌};
ghost use Rattle.om_value.specs.Lift.{lifted, lifted_add, lifted_condition};

use crate::kinds::{compares_with, inside};
use crate::rules::{
    apart, bytes_named, compared, gp_plus, kept, low_four, moved, numbers, small_below,
};
use crate::value::Value;
use om_alpha::{AluOp, Cond, Scale, Width, holds};

/// An operation on two symbolic values, or `None` exactly where its result would depend on an address.
///
/// On two numbers it is the operation of the Alpha Architecture Handbook, chapter 4. On others it has a value
/// exactly by one of these rules.
///
/// - A pointer plus a number (ADDQ either way, SUBQ with the number second, S4ADDQ and S8ADDQ with the number
///   first) is the pointer at the new offset, modulo 2^64.
/// - Any value with 0 (ADDQ, BIS, XOR either way, SUBQ with 0 second) is that value, and so is BIS or AND of a
///   value with itself.
/// - SUBQ of two pointers into one region is the difference of their offsets.
/// - CMPEQ of two pointers into one region goes by their offsets, and so do the other comparisons, unsigned, where
///   both lie in the region or at its end. CMPEQ of pointers into two regions is 0 where each lies in its region.
///   CMPEQ of a place in code with itself is 1.
/// - A number below 0x10000 is less than each place in code, and than each pointer into its region or to its end.
/// - AND of a pointer and a number below 16 is that of its offset; BIC of a pointer by one changes the offset.
/// - EXT, INS and MSK of a number by a pointer take the pointer's offset for its address.
/// - ADDQ of an object's global pointer and a distance from it, either way, is the target.
/// - SEXTB and SEXTW look at `b` alone.
///
/// `a_size` and `b_size` are the sizes, in bytes, of the regions that `a` and `b` point into now; they count for
/// pointers alone. Regions start at multiples of 16 at or above 0x10000, do not overlap, and end below 2^63.
#[tactic(auto, unfolding(crate::specs::Lift::lifted))]
pub fn lift(op: AluOp, a: Value, a_size: u64, b: Value, b_size: u64) -> Option<Value>
    ensures { result ≡ lifted op a a_size b b_size }
{
    if let Some(v) = numbers(op, a, b) {
        return Some(v);
    }
    if let Some(v) = moved(op, a, b) {
        return Some(v);
    }
    if let Some(v) = kept(op, a, b) {
        return Some(v);
    }
    if let Some(v) = apart(op, a, b) {
        return Some(v);
    }
    if let Some(v) = compared(compares_with(op), a, a_size, b, b_size) {
        return Some(v);
    }
    if let Some(v) = small_below(compares_with(op), a, a_size, b, b_size) {
        return Some(v);
    }
    if let Some(v) = low_four(op, a, b) {
        return Some(v);
    }
    if let Some(v) = bytes_named(op, a, b) {
        return Some(v);
    }
    gp_plus(op, a, b)
}

/// A symbolic value plus a signed number, as LDA and LDAH compute it: a number or a pointer moves, modulo 2^64,
/// and every value stays with 0. `None` exactly for another value and another number.
#[tactic(auto, unfolding(crate::specs::Lift::lifted_add))]
pub fn lift_add(a: Value, n: i64) -> Option<Value>
    ensures { result ≡ lifted_add a n }
{
    lift(
        AluOp::Add(Scale::One, Width::Quad),
        a,
        0,
        Value::Num(n.cast_unsigned()),
        0,
    )
}

/// A test of a symbolic value, or `None` exactly where its outcome would depend on an address.
///
/// On a number it is the test of the Alpha Architecture Handbook, chapter 4, "Conditional Branch". A place in code,
/// and a pointer into its region or to its end, are positive; the low bit of a place is 0, that of a pointer is its
/// offset's. `a_size` is the size in bytes of the region that `a` points into now.
#[tactic(auto, unfolding(crate::specs::Lift::lifted_condition))]
pub fn lift_cond(c: Cond, a: Value, a_size: u64) -> Option<bool>
    ensures { result ≡ lifted_condition c a a_size }
{
    if let Value::Num(n) = a {
        return Some(holds(c, n));
    }
    if !inside(a, a_size) {
        return None;
    }
    let low = match a {
        Value::Ptr { off, .. } => off % 2,
        _ => 0,
    };
    Some(match c {
        Cond::Lbc => low == 0,
        Cond::Lbs => low == 1,
        _ => holds(c, 1),
    })
}
