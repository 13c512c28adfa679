// Loads of near targets, which can do without the slot.
ghost use Rattle.std.specs.Prelude.{◌≡◌, ◌⊎◌, true, false, List, ℕ, Option};
ghost use Rattle.om_graph.specs.View.{replaced};
ghost use Rattle.om_layout.specs.Layout.{LayoutView};
ghost use Rattle.om_passes.specs.Passed.{IsOfAProgram};
ghost use Rattle.om_addr.specs.Passing.{Reducing};
ghost use Rattle.om_addr.specs.Loads.{IsLoadOf, NoByteUseOf};
ghost use Rattle.om_addr.specs.Near.{IsSaid};
ghost use Rattle.om_addr.specs.NearLoads.{near_by, lda_base, lda_kind};

use crate::loads::Load;
use crate::near::{Pointer, is_small};
use om_graph::{Graph, OpKind};
use om_isa::Reg;
use om_value::Target;

// Whether the target of a load is near, where its pointer lies there.
pub(crate) fn is_near(load: &Load, at: Option<Pointer>) -> bool
    ensures { result ≡ near_by load.now.target at }
{
    match load.target {
        Target::Num(n) => is_small(n.cast_signed()),
        Target::Ptr { .. } => match at {
            Some(at) => is_small(at.distance),
            None => false,
        },
        Target::Code(_) => false,
    }
}

// r31.
fn zero_register(other: Reg) -> Reg
    ensures { result ≡ 31 }
{
    match Reg::new(31) {
        Some(zero) => zero,
        None => other,
    }
}

// The base of the LDA that gives a target.
fn base_of(target: &Target, rb: Reg) -> Reg
    ensures { result ≡ lda_base target.now rb }
{
    match *target {
        Target::Num(_) => zero_register(rb),
        Target::Ptr { .. } => rb,
        Target::Code(_) => rb,
    }
}

// The LDA of a load's target.
pub(crate) fn address_load(load: &Load) -> OpKind
    ensures { result ≡ lda_kind load.now }
{
    OpKind::AddrLda {
        ra: load.ra,
        rb: base_of(&load.target, load.rb),
        target: load.target,
    }
}

// Lets a load of a near target into another register than r31 become LDA.
pub(crate) fn take_address(g: &mut Graph, load: &Load, at: Option<Pointer>)
    requires program { IsOfAProgram g.old }
    requires load { IsLoadOf g.old load.now }
    requires slot { load.now.from_slot ≡ true }
    requires register { load.now.ra ≡ 31 → ⊥ }
    requires near { near_by load.now.target at ≡ true }
    requires bytes { NoByteUseOf g.old load.now }
    ensures passed { (l : LayoutView) → IsSaid l load.now at → (masks : List ℕ) →
        Reducing l masks true g.old g.new }
{
    g.is_graph();
    g.is_numbered();
    let kind = address_load(load);
    g.replace(load.id, kind);
}

// Lets a load become LDA where its target is near and it writes another register than r31. Whether it did.
pub(crate) fn take_near(g: &mut Graph, load: &Load, at: Option<Pointer>) -> bool
    requires program { IsOfAProgram g.old }
    requires load { IsLoadOf g.old load.now }
    requires slot { load.now.from_slot ≡ true }
    requires bytes { NoByteUseOf g.old load.now }
    ensures passed { (l : LayoutView) → IsSaid l load.now at → (masks : List ℕ) →
        Reducing l masks result g.old g.new }
    ensures nothing { result ≡ false → (load.now.ra ≡ 31) ⊎ (near_by load.now.target at ≡ false) }
{
    if load.ra.num() == 31 {
        return false;
    }
    if !is_near(load, at) {
        return false;
    }
    take_address(g, load, at);
    true
}
