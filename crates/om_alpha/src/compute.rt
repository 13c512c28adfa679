// The operations on numbers.
ghost use Rattle.std.specs.Prelude.{◌≡◌, ◌+◌, ◌-◌, ◌*◌, ◌^◌, ◌<◌};
ghost use Rattle.om_alpha.specs.Arithmetic.{alu_result, overflows, holds, at_width, times, compare_is, size_ones, wide_ones, bytes_up, low_quad, high_quad, byte_of, is_too_large, signed};

use crate::op::{AluOp, Cmp, Cond, Scale, Size, Wide, Width};

/// A quadword, or the low longword with its sign.
fn at(w: Width, n: u64) -> u64
    ensures { result ≡ at_width w n }
{
    match w {
        Width::Long => sign_of_long(n),
        Width::Quad => n,
    }
}

fn sign_of_long(n: u64) -> u64
    ensures { result ≡ at_width Width.Long n }
{
    let low = (n % 0x1_0000_0000) as u32;
    i64::from(low.cast_signed()).cast_unsigned()
}

fn factor(s: Scale) -> u64
    ensures { result ≡ times s }
{
    match s {
        Scale::One => 1,
        Scale::Four => 4,
        Scale::Eight => 8,
    }
}

fn compare(c: Cmp, a: u64, b: u64) -> bool
    ensures { result ≡ compare_is c a b }
{
    match c {
        Cmp::Eq => a == b,
        Cmp::Lt => a.cast_signed() < b.cast_signed(),
        Cmp::Le => a.cast_signed() <= b.cast_signed(),
        Cmp::Ult => a < b,
        Cmp::Ule => a <= b,
    }
}

/// Whether a test holds of a quadword, seen as a signed number (Alpha Architecture Handbook, chapter 4,
/// "Conditional Branch").
pub fn holds(c: Cond, a: u64) -> bool
    ensures { result ≡ holds c a }
{
    let signed = a.cast_signed();
    match c {
        Cond::Lbc => a % 2 == 0,
        Cond::Lbs => a % 2 == 1,
        Cond::Eq => a == 0,
        Cond::Ne => a != 0,
        Cond::Lt => signed < 0,
        Cond::Ge => signed >= 0,
        Cond::Le => signed <= 0,
        Cond::Gt => signed > 0,
    }
}

fn ones(s: Size) -> u64
    ensures { result ≡ size_ones s }
{
    match s {
        Size::Byte => 0xff,
        Size::Word => 0xffff,
        Size::Long => 0xffff_ffff,
        Size::Quad => u64::MAX,
    }
}

fn high_ones(s: Wide) -> u64
    ensures { result ≡ wide_ones s }
{
    match s {
        Wide::Word => 0xffff,
        Wide::Long => 0xffff_ffff,
        Wide::Quad => u64::MAX,
    }
}

/// `n`, `b` modulo 8 bytes further up.
fn moved_up(n: u64, b: u64) -> u128
    ensures { result ≡ bytes_up n b }
{
    u128::from(n) << (8 * (b % 8) as u32)
}

fn low_half(n: u128) -> u64
    ensures { result ≡ low_quad n }
{
    (n % 0x1_0000_0000_0000_0000) as u64
}

fn high_half(n: u128) -> u64
    ensures { result ≡ high_quad n }
{
    (n >> 64) as u64
}

fn add(s: Scale, w: Width, a: u64, b: u64) -> u64
    ensures { result ≡ at_width w (times s * a + b) }
{
    at(w, factor(s).wrapping_mul(a).wrapping_add(b))
}

fn sub(s: Scale, w: Width, a: u64, b: u64) -> u64
    ensures { result ≡ at_width w (times s * a + (2 ^ 64 - b)) }
{
    at(w, factor(s).wrapping_mul(a).wrapping_sub(b))
}

fn mul(w: Width, a: u64, b: u64) -> u64
    ensures { result ≡ at_width w (a * b) }
{
    at(w, a.wrapping_mul(b))
}

fn arithmetic_shift(a: u64, b: u64) -> u64
    ensures { result ≡ alu_result AluOp.Sra a b }
{
    (a.cast_signed() >> (b % 64) as u32).cast_unsigned()
}

fn extract_high(s: Wide, a: u64, b: u64) -> u64
    ensures { result ≡ alu_result (AluOp.ExtHigh s) a b }
{
    (a << ((64 - 8 * (b % 8)) % 64) as u32) & high_ones(s)
}

fn extract_low(s: Size, a: u64, b: u64) -> u64
    ensures { result ≡ alu_result (AluOp.ExtLow s) a b }
{
    (a >> (8 * (b % 8)) as u32) & ones(s)
}

fn byte(n: u64, i: u32) -> u64
    requires { i < 8 }
    ensures { result ≡ byte_of n i }
{
    (n >> (8 * i)) % 256
}

/// Bit i is set where byte i of `a` is at least byte i of `b`.
fn bytes_at_least(a: u64, b: u64) -> u64
    ensures { result ≡ alu_result AluOp.Cmpbge a b }
{
    let mut bits: u64 = 0;
    for i in 0..8 {
        if byte(a, i) >= byte(b, i) {
            bits += 1 << i;
        }
    }
    bits
}

/// `a` with byte i cleared where bit i of `cleared` is set.
fn zap(a: u64, cleared: u64) -> u64
    ensures { result ≡ alu_result AluOp.Zap a cleared }
{
    let mut bytes = a.to_le_bytes();
    for i in 0..8 {
        if (cleared >> i) % 2 == 1 {
            bytes[i] = 0;
        }
    }
    u64::from_le_bytes(bytes)
}

/// `a` with byte i cleared where bit i of `kept` is clear.
fn zapnot(a: u64, kept: u64) -> u64
    ensures { result ≡ alu_result AluOp.Zapnot a kept }
{
    zap(a, !kept)
}

fn mask_low(s: Size, a: u64, b: u64) -> u64
    ensures { result ≡ alu_result (AluOp.MskLow s) a b }
{
    a & !low_half(moved_up(ones(s), b))
}

fn mask_high(s: Wide, a: u64, b: u64) -> u64
    ensures { result ≡ alu_result (AluOp.MskHigh s) a b }
{
    a & !high_half(moved_up(high_ones(s), b))
}

fn insert_low(s: Size, a: u64, b: u64) -> u64
    ensures { result ≡ alu_result (AluOp.InsLow s) a b }
{
    low_half(moved_up(a & ones(s), b))
}

fn insert_high(s: Wide, a: u64, b: u64) -> u64
    ensures { result ≡ alu_result (AluOp.InsHigh s) a b }
{
    high_half(moved_up(a & high_ones(s), b))
}

/// The result of an operation on two quadwords, modulo 2^64; a /V operation gives the result of the same
/// operation without /V. Byte operations look at the low three bits of `b`, shifts at its low six
/// (Alpha Architecture Handbook, chapter 4).
pub fn alu(op: AluOp, a: u64, b: u64) -> u64
    ensures { result ≡ alu_result op a b }
{
    match op {
        AluOp::Add(s, w) => add(s, w, a, b),
        AluOp::Sub(s, w) => sub(s, w, a, b),
        AluOp::Mul(w) | AluOp::MulV(w) => mul(w, a, b),
        AluOp::AddV(w) => add(Scale::One, w, a, b),
        AluOp::SubV(w) => sub(Scale::One, w, a, b),
        AluOp::Umulh => high_half(u128::from(a) * u128::from(b)),
        AluOp::Compare(c) => u64::from(compare(c, a, b)),
        AluOp::Cmpbge => bytes_at_least(a, b),
        AluOp::And => a & b,
        AluOp::Bis => a | b,
        AluOp::Xor => a ^ b,
        AluOp::Bic => a & !b,
        AluOp::Ornot => a | !b,
        AluOp::Eqv => a ^ !b,
        AluOp::Sll => a << (b % 64) as u32,
        AluOp::Srl => a >> (b % 64) as u32,
        AluOp::Sra => arithmetic_shift(a, b),
        AluOp::Zap => zap(a, b),
        AluOp::Zapnot => zapnot(a, b),
        AluOp::Sextb => i64::from(((b % 0x100) as u8).cast_signed()).cast_unsigned(),
        AluOp::Sextw => i64::from(((b % 0x1_0000) as u16).cast_signed()).cast_unsigned(),
        AluOp::ExtLow(s) => extract_low(s, a, b),
        AluOp::ExtHigh(s) => extract_high(s, a, b),
        AluOp::InsLow(s) => insert_low(s, a, b),
        AluOp::InsHigh(s) => insert_high(s, a, b),
        AluOp::MskLow(s) => mask_low(s, a, b),
        AluOp::MskHigh(s) => mask_high(s, a, b),
    }
}

/// A quadword, or its low longword, as a signed number.
fn signed_at(w: Width, n: u64) -> i64
    ensures { result ≡ signed w n }
{
    match w {
        Width::Long => i64::from(((n % 0x1_0000_0000) as u32).cast_signed()),
        Width::Quad => n.cast_signed(),
    }
}

fn too_large(w: Width, z: i128) -> bool
    ensures { result ≡ is_too_large w z }
{
    match w {
        Width::Long => z < i128::from(i32::MIN) || i128::from(i32::MAX) < z,
        Width::Quad => z < i128::from(i64::MIN) || i128::from(i64::MAX) < z,
    }
}

fn sum_overflows(w: Width, a: u64, b: u64) -> bool
    ensures { result ≡ overflows (AluOp.AddV w) a b }
{
    too_large(w, i128::from(signed_at(w, a)) + i128::from(signed_at(w, b)))
}

fn difference_overflows(w: Width, a: u64, b: u64) -> bool
    ensures { result ≡ overflows (AluOp.SubV w) a b }
{
    too_large(w, i128::from(signed_at(w, a)) - i128::from(signed_at(w, b)))
}

fn product_overflows(w: Width, a: u64, b: u64) -> bool
    ensures { result ≡ overflows (AluOp.MulV w) a b }
{
    too_large(w, i128::from(signed_at(w, a)) * i128::from(signed_at(w, b)))
}

/// Whether the exact signed result of a /V operation does not fit: in 64 bits, or for a longword operation,
/// which looks at the low longwords, in 32. Never for another operation (Alpha Architecture Handbook,
/// chapter 4, "Integer Arithmetic Instructions").
pub fn overflows(op: AluOp, a: u64, b: u64) -> bool
    ensures { result ≡ overflows op a b }
{
    match op {
        AluOp::AddV(w) => sum_overflows(w, a, b),
        AluOp::SubV(w) => difference_overflows(w, a, b),
        AluOp::MulV(w) => product_overflows(w, a, b),
        _ => false,
    }
}
