// Loads of far pointers of which all uses are base uses.
ghost use Rattle.std.specs.Prelude.{int_le, List, ℕ, ◌≡◌, ◌<◌, ◌≤ℤ◌, ℤ, pos, negsuc, ◌+ℤ◌, ◌-ℤ◌, ◌*ℤ◌, IsTrue, true, false, Some};
ghost use Rattle.om_isa.specs.Registers.{mask_of};
ghost use Rattle.om_uses.specs.Scans.{has_bit as mask_has};
ghost use Rattle.om_graph.specs.Held.{IsGraph};
ghost use Rattle.om_graph.specs.View.{is_live_block, is_live_op, block_of, block_with};
ghost use Rattle.om_blocks.specs.Effects.{kind_reads, last_reads as registers_last_read};
ghost use Rattle.om_graph.specs.Numbers.{AreNumbered};
ghost use Rattle.om_layout.specs.Layout.{LayoutView};
ghost use Rattle.om_passes.specs.Passed.{IsOfAProgram};
ghost use Rattle.om_addr.specs.Passing.{Reducing};
ghost use Rattle.om_addr.specs.Loads.{IsLoadOf, HasPointer};
ghost use Rattle.om_addr.specs.Near.{IsTame, IsSaid};
ghost use Rattle.om_addr.specs.FarRow.{AreSetBehind};
ghost use Rattle.om_addr.specs.FarTest.{base_of_kind, half_kind, writes_it};
ghost use Rattle.om_addr.specs.Split.{KeepsEnds};
ghost use Rattle.om_addr.specs.FarEdit.{no_bases, with_disp, with_op as bases_with_op, high_part as high_of, quotient_at, one_half, half_of, AreShort, AllShort, AreBasesOf, IsFarEdit, IsDeadAtEnd, NoFarOf};

use crate::base_uses::{disp_of, is_base};
use crate::loads::{Load, has_bit, set, writes};
use crate::near::{Pointer, is_small};
use om_blocks::{last_reads, reads_of};
use om_graph::{BlockId, Graph, Last, OpKind};
use om_isa::Reg;
use om_value::Place;

// A half and what is behind it reach no farther.
const REACH: i64 = 1 << 40;

// The base uses of a load: whether there is one, and the least and the greatest displacement of them.
#[derive(Clone, Copy)]
pub(crate) struct Bases {
    pub(crate) any: bool,
    pub(crate) least: i16,
    pub(crate) most: i16,
}

// The displacement of a base use.
fn base_disp(kind: &OpKind, r: Reg) -> Option<i16>
    ensures { result ≡ base_of_kind r kind.now }
{
    let OpKind::Plain(instr) = *kind else {
        return None;
    };
    if is_base(&instr, r) {
        Some(disp_of(&instr))
    } else {
        None
    }
}

// Whether an op reads a register other than r31.
fn reads(kind: &OpKind, r: Reg) -> bool
    ensures { result ≡ mask_has (mask_of (kind_reads kind.now)) r }
{
    has_bit(reads_of(kind), r)
}

// Whether the word that ends a block does.
fn end_reads(last: &Last, r: Reg) -> bool
    ensures { result ≡ mask_has (mask_of (registers_last_read last.now)) r }
{
    has_bit(last_reads(last), r)
}

impl Bases {
    // With a base use more.
    fn with(self, disp: i16) -> Bases
        requires { AreShort self }
        ensures value { result ≡ with_disp self disp }
        ensures short { AreShort result }
    {
        Bases {
            any: true,
            least: if self.any && self.least <= disp {
                self.least
            } else {
                disp
            },
            most: if self.any && disp <= self.most {
                self.most
            } else {
                disp
            },
        }
    }

    // With an op more, which must be a base use if it reads the register.
    fn with_op(self, kind: &OpKind, r: Reg) -> Option<Bases>
        requires { AreShort self }
        ensures value { result ≡ bases_with_op (base_of_kind r kind.now) (mask_has (mask_of (kind_reads kind.now)) r) self }
        ensures short { AllShort result }
    {
        match base_disp(kind, r) {
            Some(disp) => Some(self.with(disp)),
            None => { if reads(kind, r) { None } else { Some(self) } }
        }
    }
}

// The displacements of the uses of a load, where all of them are base uses.
fn bases_of(g: &Graph, b: BlockId, load: &Load) -> Option<Bases>
    requires graph { IsGraph g.now }
    requires load { IsLoadOf g.now load.now }
    requires live { IsTrue (is_live_block g.now b) }
    requires block { block_with g.now load.now.id ≡ block_of g.now b }
    requires register { load.now.ra < 31 }
    ensures { AreBasesOf g.now load.now.id load.now.ra result }
{
    let r = load.ra;
    let mut all = Bases {
        any: false,
        least: 0,
        most: 0,
    };
    let mut next = g.next_op(load.id);
    while let Some(o) = next {
        let kind = g.op(o).kind;
        let Some(more) = all.with_op(&kind, r) else {
            return None;
        };
        all = more;
        if writes(&kind, r) {
            return Some(all);
        }
        next = g.next_op(o);
    }
    if end_reads(&g.last(b), r) {
        None
    } else {
        Some(all)
    }
}

// The high half of a distance: what is left of it fits 16 signed bits.
fn high_part(distance: i64) -> i64
    requires { distance ≤ℤ pos 4398046511104 }
    ensures { result ≡ high_of distance }
{
    (distance + 32768).div_euclid(65536)
}

// The quotient by 16 of a displacement from a pointer.
fn quotient(at: &Pointer, disp: i16) -> i64
    requires { IsTame at.now }
    ensures { result ≡ quotient_at at.now disp }
{
    (at.off + i64::from(disp)).div_euclid(16)
}

// What is left of a distance behind this half.
fn rest_of(distance: i64, high: i64) -> i64
    requires low { negsuc 4398046511103 ≤ℤ distance }
    requires up { distance ≤ℤ pos 4398046511104 }
    requires least { negsuc 32767 ≤ℤ high }
    requires most { high ≤ℤ pos 32767 }
    ensures { result ≡ distance -ℤ (pos 65536 *ℤ high) }
{
    distance - 65536 * high
}

// The distance to a displacement from the pointer.
fn distance_to(at: &Pointer, disp: i16) -> i64
    requires low { negsuc 1099511627775 ≤ℤ at.now.distance }
    requires up { at.now.distance ≤ℤ pos 1099511627776 }
    ensures value { result ≡ at.now.distance +ℤ disp }
    ensures low { negsuc 4398046511103 ≤ℤ result }
    ensures up { result ≤ℤ pos 4398046511104 }
{
    at.distance + i64::from(disp)
}

fn is_at_most(a: i64, b: i64) -> bool
    ensures { result ≡ int_le a b }
{
    a <= b
}

// Whether one half serves uses with displacements from `least` to `most`, where the pointer is not farther than all halves
// reach.
fn half_serves(at: &Pointer, least: i16, most: i16) -> bool
    requires tame { IsTame at.now }
    requires low { negsuc 1099511627775 ≤ℤ at.now.distance }
    requires up { at.now.distance ≤ℤ pos 1099511627776 }
    ensures { result ≡ one_half at.now least most }
{
    let high = high_part(distance_to(at, least));
    if !is_small(high) {
        return false;
    }
    if !is_small(rest_of(distance_to(at, most), high)) {
        return false;
    }
    is_at_most(quotient(at, most), quotient(at, least))
}

// Whether one half serves uses with displacements from `least` to `most`.
fn serves_all(at: &Pointer, least: i16, most: i16) -> bool
    requires { IsTame at.now }
    ensures { result ≡ one_half at.now least most }
{
    if at.distance < -REACH || REACH < at.distance {
        return false;
    }
    half_serves(at, least, most)
}

// What an op becomes, where it is a base use of the load at a place.
fn half_use(kind: &OpKind, r: Reg, hi: Place) -> Option<OpKind>
    ensures { result ≡ half_kind r hi kind.now }
{
    let OpKind::Plain(instr) = *kind else {
        return None;
    };
    if is_base(&instr, r) {
        Some(OpKind::UseLo { instr, hi })
    } else {
        None
    }
}

// Lets each base use of a load take its half.
fn take_halves(g: &mut Graph, load: &Load, hi: Place)
    requires graph { IsGraph g.old }
    requires load { IsLoadOf g.old load.now }
    requires register { load.now.ra < 31 }
    ensures { AreSetBehind (half_kind load.now.ra hi) (writes_it load.now.ra) g.old g.new load.now.id }
{
    let r = load.ra;
    let mut next = g.next_op(load.id);
    while let Some(o) = next {
        let kind = g.op(o).kind;
        g.is_graph();
        let _ = set(g, o, half_use(&kind, r, hi));
        g.is_graph();
        if writes(&kind, r) {
            return;
        }
        next = g.next_op(o);
    }
}

// Lets a load become LDAH, and its uses take the rest.
fn make_far(g: &mut Graph, load: &Load, least: i16)
    requires graph { IsGraph g.old }
    requires load { IsLoadOf g.old load.now }
    requires register { load.now.ra < 31 }
    ensures { IsFarEdit load.now least g.old g.new }
{
    let hi = g.op(load.id).place;
    take_halves(g, load, hi);
    let half = OpKind::AddrHi {
        ra: load.ra,
        rb: load.rb,
        target: load.target,
        least,
    };
    g.replace(load.id, half);
}

// Lets a load of a far pointer become LDAH, and its uses take the rest, where all of them can. `live` is whether its register
// may be read from the end of its block on. Whether it did.
pub(crate) fn split_address(
    g: &mut Graph,
    b: BlockId,
    load: &Load,
    at: &Pointer,
    live: bool,
) -> bool
    requires program { IsOfAProgram g.old }
    requires load { IsLoadOf g.old load.now }
    requires slot { load.now.from_slot ≡ true }
    requires pointer { HasPointer load.now }
    requires live { IsTrue (is_live_block g.old b) }
    requires block { block_with g.old load.now.id ≡ block_of g.old b }
    requires tame { IsTame at.now }
    ensures passed { (l : LayoutView) → (masks : List ℕ) → IsSaid l load.now (Some at.now) →
        (live ≡ false → IsDeadAtEnd masks g.old load.now) → Reducing l masks result g.old g.new }
    ensures ends { KeepsEnds g.old g.new }
    ensures nothing { (l : LayoutView) → IsSaid l load.now (Some at.now) → result ≡ false →
        NoFarOf l g.old load.now live }
{
    if live || load.ra.num() == 31 || is_small(at.distance) {
        return false;
    }
    g.is_graph();
    g.is_numbered();
    let Some(all) = bases_of(g, b, load) else {
        return false;
    };
    if !all.any || !serves_all(at, all.least, all.most) {
        return false;
    }
    make_far(g, load, all.least);
    true
}
