// The instruction of each op.
ghost use Rattle.std.specs.Prelude.{◌≡◌, ◌<◌, ◌^◌, ℕ, ℤ, pos, ◌+ℤ◌, ◌-ℤ◌, ◌*ℤ◌, Some, IsSome, length, slice_get, FitsSigned};
ghost use Rattle.std.specs.Int.{w16};
ghost use Rattle.om_isa.specs.declared.instr.Instr.TheVariants.{Mem as MemWord};
ghost use Rattle.om_isa.specs.declared.instr.MemOp.TheVariants.{Lda as LdaOp, Ldah as LdahOp, Ldq as LdqOp};
ghost use Rattle.om_value.specs.declared.value.Place.{Place as PlaceOf};
ghost use Rattle.om_prog.specs.Act.{base_of};
ghost use Rattle.om_layout.specs.Layout.{table_at, gp_of, slot_at};
ghost use Rattle.om_encode.specs.Halves.{high_part as high_of, from_gp as from_gp_of, from_base as from_base_of};
ghost use Rattle.om_encode.specs.Fitting.{low_part as low_of};
ghost use Rattle.om_encode.specs.Written.{IsNear, HasNearSlot, FitsLda, FitsHigh, FitsPair, FitsOver, FitsUse, FitsLow, FitsOp, HasHalf, IsOver, IsLda, IsInstrOf, behind, base_in_role as base_in_role_of, pair_base as pair_base_of};

use crate::distances::{distance, high_part};
use crate::highs::High;
use crate::words::{memory_instr, use_instr};
use om_graph::OpKind;
use om_isa::{Instr, MemOp, Reg};
use om_layout::Layout;
use om_prog::{Program, Role};
use om_value::{Place, Target};

// How far a target lies behind the global pointer of an object.
fn from_gp(layout: &Layout, obj: u32, target: Target) -> i64
    requires near { IsNear layout.now obj target }
    ensures { result ≡ from_gp_of layout.now obj target }
{
    distance(layout.gp(obj), layout.address(target))
}

// The LDQ of the slot of a target.
fn slot_load(layout: &Layout, obj: u32, ra: Reg, rb: Reg, target: Target) -> Instr
    requires fits { HasNearSlot layout.now obj target }
    ensures { (a : ℕ) → slot_at layout.now (table_at layout.now obj) target ≡ Some a → result ≡ MemWord LdqOp ra rb (pos a -ℤ pos (gp_of layout.now obj)) }
{
    let slot = layout.slot(layout.table(obj), target).unwrap();
    memory_instr(MemOp::Ldq, ra, rb, distance(layout.gp(obj), slot))
}

// The LDA of a number, or of a target over the global pointer.
fn address_load(layout: &Layout, obj: u32, ra: Reg, rb: Reg, target: Target) -> Instr
    requires fits { FitsLda layout.now obj target }
    ensures { IsLda layout.now obj ra rb target result }
{
    match target {
        Target::Num(number) => memory_instr(MemOp::Lda, ra, rb, number.cast_signed()),
        _ => memory_instr(MemOp::Lda, ra, rb, from_gp(layout, obj, target)),
    }
}

// The high part of a target's distance from the global pointer, by the least displacement of its uses.
fn high_of_target(layout: &Layout, obj: u32, high: High) -> i64
    requires fits { FitsHigh layout.now obj high.target high.least }
    ensures { result ≡ high_of (from_gp_of layout.now obj high.target +ℤ high.least) }
{
    high_part(from_gp(layout, obj, high.target) + i64::from(high.least))
}

// The LDAH of such a target.
fn high_load(layout: &Layout, obj: u32, ra: Reg, rb: Reg, high: High) -> Instr
    requires fits { FitsHigh layout.now obj high.target high.least }
    ensures { result ≡ MemWord LdahOp ra rb (high_of (from_gp_of layout.now obj high.target +ℤ high.least)) }
{
    memory_instr(MemOp::Ldah, ra, rb, high_of_target(layout, obj, high))
}

// What is left of a target's distance from the global pointer behind its high part.
fn rest_of_target(layout: &Layout, obj: u32, high: High) -> i64
    requires { FitsHigh layout.now obj high.target high.least }
    ensures { result ≡ behind layout.now obj high }
{
    from_gp(layout, obj, high.target) - 65536 * high_of_target(layout, obj, high)
}

// A load or store over the half of a target, of which it adds the rest.
fn use_of_high(layout: &Layout, obj: u32, instr: &Instr, base: Reg, high: High) -> Instr
    requires high { FitsHigh layout.now obj high.target high.least }
    requires fits { FitsOver instr.now (behind layout.now obj high) }
    ensures { IsOver instr.now base (behind layout.now obj high) result }
{
    use_instr(instr, base, rest_of_target(layout, obj, high))
}

// A load or store over the half of a target that its register has.
fn low_use(layout: &Layout, obj: u32, instr: &Instr, highs: &[Option<High>; 32]) -> Instr
    requires fits { FitsUse layout.now highs.now obj instr.now }
    ensures { (h : High) → HasHalf highs.now instr.now h → IsOver instr.now (base_of instr.now) (behind layout.now obj h) result }
{
    let Instr::Mem { rb, .. } = *instr else {
        unreachable!()
    };
    let high = highs[rb.num() as usize].unwrap();
    use_of_high(layout, obj, instr, rb, high)
}

// A load or store over the global pointer itself.
fn near_use(layout: &Layout, obj: u32, instr: &Instr, gp: Reg, target: Target) -> Instr
    requires near { IsNear layout.now obj target }
    requires fits { FitsOver instr.now (from_gp_of layout.now obj target) }
    ensures { IsOver instr.now gp (from_gp_of layout.now obj target) result }
{
    use_instr(instr, gp, from_gp(layout, obj, target))
}

// How far the global pointer of an object lies behind a place in code.
fn from_base(layout: &Layout, obj: u32, base: Place) -> i64
    requires fits { FitsPair layout.now obj base }
    ensures { result ≡ from_base_of layout.now obj base }
{
    distance(layout.code(base), layout.gp(obj))
}

// The LDAH of a pair that sets the global pointer.
fn pair_high(layout: &Layout, obj: u32, ra: Reg, rb: Reg, base: Place) -> Instr
    requires fits { FitsPair layout.now obj base }
    ensures { result ≡ MemWord LdahOp ra rb (high_of (from_base_of layout.now obj base)) }
{
    memory_instr(MemOp::Ldah, ra, rb, high_part(from_base(layout, obj, base)))
}

// The LDA of such a pair.
fn pair_low(layout: &Layout, obj: u32, ra: Reg, rb: Reg, base: Place) -> Instr
    requires fits { FitsPair layout.now obj base }
    ensures { result ≡ MemWord LdaOp ra rb (low_of (from_base_of layout.now obj base)) }
{
    let distance = from_base(layout, obj, base);
    memory_instr(MemOp::Lda, ra, rb, distance - 65536 * high_part(distance))
}

// The base place of a pair, by what its LDAH stands for.
fn base_in_role(role: Role) -> Option<Place>
    ensures { result ≡ base_in_role_of role }
{
    match role {
        Role::GpHi { base } => Some(base),
        _ => None,
    }
}

// The base place of the pair whose LDAH stands at a place.
fn pair_base(program: &Program, hi: Place) -> Option<Place>
    ensures { result ≡ pair_base_of program.now hi }
{
    match program.item(hi) {
        Some(item) => base_in_role(item.role),
        None => None,
    }
}

// The LDA of the pair whose LDAH stands at a place.
fn low_of_pair(program: &Program, layout: &Layout, obj: u32, ra: Reg, rb: Reg, hi: Place) -> Instr
    requires { FitsLow program.now layout.now obj hi }
    ensures { (base : PlaceOf) → pair_base_of program.now hi ≡ Some base → result ≡ MemWord LdaOp ra rb (low_of (from_base_of layout.now obj base)) }
{
    let base = pair_base(program, hi).unwrap();
    pair_low(layout, obj, ra, rb, base)
}

/// The instruction of an op of an object, behind ops after which the registers have these high halves.
pub(crate) fn op_instr(
    program: &Program,
    layout: &Layout,
    highs: &[Option<High>; 32],
    obj: u32,
    kind: &OpKind,
) -> Instr
    requires { FitsOp program.now layout.now highs.now obj kind.now }
    ensures { IsInstrOf program.now layout.now highs.now obj kind.now result }
{
    match *kind {
        OpKind::Plain(instr) => instr,
        OpKind::Lit { ra, rb, target } => slot_load(layout, obj, ra, rb, target),
        OpKind::AddrLda { ra, rb, target } => address_load(layout, obj, ra, rb, target),
        OpKind::AddrHi {
            ra,
            rb,
            target,
            least,
        } => high_load(layout, obj, ra, rb, High { target, least }),
        OpKind::UseLo { instr, hi: _ } => low_use(layout, obj, &instr, highs),
        OpKind::UseGp { instr, gp, target } => near_use(layout, obj, &instr, gp, target),
        OpKind::GpHi { ra, rb, base } => pair_high(layout, obj, ra, rb, base),
        OpKind::GpLo { ra, rb, hi } => low_of_pair(program, layout, obj, ra, rb, hi),
    }
}
