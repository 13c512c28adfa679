// What one word other than a system call does, before it is done.
ghost use Rattle.std.specs.Prelude.{◌≡◌, ◌≤◌, ◌<◌, ◌+◌, ◌%◌, ◌^◌, ◌==◌, ◌*ℤ◌, nat_le, true, false, IsTrue, Some, None};
ghost use Rattle.om_value.specs.Lift.{value_of as target_value, lifted_add};
ghost use Rattle.om_value.specs.Same.{value_eq};
ghost use Rattle.om_prog.specs.Cells.{cells_of};
ghost use Rattle.om_prog.specs.Step.{spot_of, access_size, address_scale, rounded as rounded_value, accessed as accessed_value, extended as extended_value, stored, next_place as place_after};
ghost use Rattle.om_symrun.specs.Actions.{spot_in, IsSpotNear, holds};
ghost use Rattle.om_symrun.specs.CellsIn.{size_bytes};

use crate::cells::length_of;
use om_alpha::{AluOp, Scale, Size, TrapKind, Width, alu};
use om_isa::MemOp;
use om_value::{Place, Region, Target, Value, lift_add};

/// What one word other than a system call does.
#[derive(Clone, Copy, PartialEq, Eq, Debug)]
pub(crate) enum Action {
    /// Nothing; the next place follows.
    Nothing,
    /// A register gets a value.
    Set(u8, Value),
    /// A value, or the low bytes of a number, go to a place of a region.
    Store(Region, u64, Size, Value),
    /// The link register, if any, gets the next place, and the word at a place follows.
    Jump(Option<u8>, Place),
    /// The run ends by a trap.
    Stop(TrapKind),
    /// The run ends, since an address would be shown.
    Observe,
}

/// Where an access goes.
#[derive(Clone, Copy, PartialEq, Eq, Debug)]
pub(crate) enum Spot {
    /// So many bytes behind the start of a region.
    Inside(Region, u64),
    /// To a trap.
    Refused(TrapKind),
    /// Nowhere without showing an address.
    Hidden,
}

pub(crate) fn size_of_op(op: MemOp) -> Size
    ensures { size_bytes result ≡ access_size op }
{
    match op {
        MemOp::Lda => Size::Quad,
        MemOp::Ldah => Size::Quad,
        MemOp::Ldbu => Size::Byte,
        MemOp::LdqU => Size::Quad,
        MemOp::Ldwu => Size::Word,
        MemOp::Stw => Size::Word,
        MemOp::Stb => Size::Byte,
        MemOp::StqU => Size::Quad,
        MemOp::Ldl => Size::Long,
        MemOp::Ldq => Size::Quad,
        MemOp::Stl => Size::Long,
        MemOp::Stq => Size::Quad,
    }
}

fn is_aligned(size: Size, at: u64) -> bool
    ensures { result ≡ (at % size_bytes size == 0) }
{
    match size {
        Size::Byte => true,
        Size::Word => at % 2 == 0,
        Size::Long => at % 4 == 0,
        Size::Quad => at % 8 == 0,
    }
}

/// Whether so many bytes from an offset on lie in a region of a size.
pub(crate) fn lies_within(at: u64, n: u64, size: u64) -> bool
    ensures { result ≡ nat_le (at + n) size }
{
    u128::from(at) + u128::from(n) <= u128::from(size)
}

/// Where an access at a number goes.
pub(crate) fn spot_of_number(size: Size, n: u64) -> Spot
    ensures value { spot_in result ≡ spot_of (λ r. 0) (size_bytes size) (Value.Num n) }
    ensures near { IsSpotNear Region.Stack 0 0 0 result }
{
    if !is_aligned(size, n) {
        Spot::Refused(TrapKind::Unaligned)
    } else if n < 0x1_0000 {
        Spot::Refused(TrapKind::Access)
    } else {
        Spot::Hidden
    }
}

/// Where an access at a pointer goes, into a region that has so many bytes.
pub(crate) fn spot_of_pointer(size: Size, region: Region, off: u64, bytes: u64) -> Spot
    ensures value { spot_in result ≡ spot_of (λ r. bytes) (size_bytes size) (Value.Ptr region off) }
    ensures near { IsSpotNear region off (size_bytes size) bytes result }
{
    if !is_aligned(size, off) {
        Spot::Refused(TrapKind::Unaligned)
    } else if lies_within(off, length_of(size) as u64, bytes) {
        Spot::Inside(region, off)
    } else {
        Spot::Hidden
    }
}

pub(crate) fn scaled(op: MemOp, disp: i16) -> i64
    ensures { result ≡ address_scale op *ℤ disp }
{
    match op {
        MemOp::Ldah => 65536 * i64::from(disp),
        _ => i64::from(disp),
    }
}

fn rounded(v: Value) -> Value
    ensures { result ≡ rounded_value v }
{
    match v {
        Value::Num(n) => Value::Num(n / 8 * 8),
        Value::Ptr { region, off } => Value::Ptr {
            region,
            off: off / 8 * 8,
        },
        _ => v,
    }
}

/// The address that an operation moves from or to.
pub(crate) fn accessed(op: MemOp, v: Value) -> Value
    ensures { result ≡ accessed_value op v }
{
    match op {
        MemOp::LdqU => rounded(v),
        MemOp::StqU => rounded(v),
        _ => v,
    }
}

/// A value plus a signed number, or `None` exactly where that would depend on an address.
#[tactic(auto, unfolding(om_value::specs::Lift::lifted_add, om_value::specs::Lift::lifted, om_value::specs::Lift::on_numbers, om_value::specs::Lift::moves_pointer))]
pub(crate) fn moved(base: Value, n: i64) -> Option<Value>
    ensures { result ≡ lifted_add base n }
{
    match base {
        Value::Num(m) => Some(Value::Num(m.wrapping_add(n.cast_unsigned()))),
        Value::Ptr { region, off } => Some(Value::Ptr {
            region,
            off: off.wrapping_add(n.cast_unsigned()),
        }),
        _ => lift_add(base, n),
    }
}

/// What a load leaves of what it finds.
pub(crate) fn extended(op: MemOp, v: Value) -> Value
    ensures { result ≡ extended_value op v }
{
    match (op, v) {
        (MemOp::Ldl, Value::Num(n)) => Value::Num(alu(AluOp::Add(Scale::One, Width::Long), n, 0)),
        _ => v,
    }
}

/// Whether so many bytes of memory hold a value.
pub(crate) fn can_hold(size: Size, v: Value) -> bool
    ensures value { result ≡ holds size v }
    ensures yes { IsTrue result → stored (size_bytes size) v ≡ Some (cells_of (size_bytes size) v) }
    ensures not { result ≡ false → stored (size_bytes size) v ≡ None }
{
    match (v, size) {
        (Value::Num(_), _) => true,
        (_, Size::Quad) => true,
        _ => false,
    }
}

pub(crate) fn is_gp(v: Value, obj: u32) -> bool
    ensures { result ≡ value_eq v (Value.Gp obj) }
{
    match v {
        Value::Gp(o) => o == obj,
        _ => false,
    }
}

pub(crate) fn is_code(v: Value, q: Place) -> bool
    ensures { result ≡ value_eq v (Value.Code q) }
{
    match v {
        Value::Code(p) => p.obj == q.obj && p.off == q.off,
        _ => false,
    }
}

pub(crate) fn is_half(v: Value, q: Place) -> bool
    ensures { result ≡ value_eq v (Value.Half q) }
{
    match v {
        Value::Half(p) => p.obj == q.obj && p.off == q.off,
        _ => false,
    }
}

pub(crate) fn value_of(t: Target) -> Value
    ensures { result ≡ target_value t }
{
    match t {
        Target::Num(n) => Value::Num(n),
        Target::Ptr { region, off } => Value::Ptr { region, off },
        Target::Code(p) => Value::Code(p),
    }
}

/// The next place, where there is one.
pub(crate) fn next_place(p: Place) -> Place
    requires { p.off + 4 < 2 ^ 32 }
    ensures { result ≡ place_after p }
{
    Place {
        obj: p.obj,
        off: p.off + 4,
    }
}
