// Landing places, opening pairs, and where blocks begin.
ghost use Rattle.std.specs.Prelude.{◌≡◌, ◌+◌, ◌<◌, ◌^◌, ◌-◌, ◌&&◌, ℤ, nat_le, true};
ghost use Rattle.om_isa.specs.declared.instr.Instr.TheVariants.{Branch as BranchWord};
ghost use Rattle.om_prog.specs.View.{is_word};
ghost use Rattle.om_graph.specs.Form.{ends_block as ends_block_of};
ghost use Rattle.om_graph.specs.Landing.{writes_link as writes_link_of, word_before, are_halves as are_halves_of, is_adjacent as is_adjacent_of, is_landing as is_landing_of, is_opening_pair as is_opening_pair_of, begins as begins_of};
ghost use Rattle.om_lift.specs.Places.{AreMarksOf};

use crate::marks::Marks;
use om_isa::{BrOp, Instr, Reg};
use om_prog::{Item, Program, Role};
use om_value::Place;

/// Whether an instruction ends its block: it is a branch or a jump.
pub(crate) fn ends_block(instr: Instr) -> bool
    ensures { result ≡ ends_block_of instr }
{
    matches!(instr, Instr::Branch { .. } | Instr::Jump { .. })
}

// Whether a branch writes a link register.
fn branch_links(op: BrOp, ra: Reg) -> bool
    ensures { (d : ℤ) → result ≡ writes_link_of (BranchWord op ra d) }
{
    match op {
        BrOp::If(_) => false,
        BrOp::Br | BrOp::Bsr => ra.num() != 31,
    }
}

// Whether an instruction writes a link register.
fn writes_link(instr: Instr) -> bool
    ensures { result ≡ writes_link_of instr }
{
    match instr {
        Instr::Branch { op, ra, .. } => branch_links(op, ra),
        Instr::Jump { ra, .. } => ra.num() != 31,
        _ => false,
    }
}

// Whether the word before a place writes a link register.
fn follows_link(p: &Program, at: Place) -> bool
    ensures { result ≡ word_before p.now writes_link_of at }
{
    if at.off < 4 {
        return false;
    }
    match p.item(Place {
        obj: at.obj,
        off: at.off - 4,
    }) {
        Some(item) => writes_link(item.instr),
        None => false,
    }
}

// Whether the word before a place ends its block.
fn follows_end(p: &Program, at: Place) -> bool
    ensures { result ≡ word_before p.now ends_block_of at }
{
    if at.off < 4 {
        return false;
    }
    match p.item(Place {
        obj: at.obj,
        off: at.off - 4,
    }) {
        Some(item) => ends_block(item.instr),
        None => false,
    }
}

// Whether the high half of a pair stands at one place, and its low half at another.
fn are_halves(p: &Program, hi: Place, lo: Place) -> bool
    ensures { result ≡ are_halves_of p.now hi lo }
{
    match (p.item(hi), p.item(lo)) {
        (
            Some(
                Item {
                    role: Role::GpHi { .. },
                    ..
                },
            ),
            Some(
                Item {
                    role: Role::GpLo { hi: of },
                    ..
                },
            ),
        ) => of == hi,
        _ => false,
    }
}

// Whether a pair stands on the two words from a place on, in either order.
fn is_adjacent(p: &Program, at: Place) -> bool
    requires { at.off + 4 < 2 ^ 32 }
    ensures { result ≡ is_adjacent_of p.now at }
{
    let next = Place {
        obj: at.obj,
        off: at.off + 4,
    };
    are_halves(p, at, next) || are_halves(p, next, at)
}

// Whether a jump by a register may go to the word at a place.
fn is_landing(p: &Program, marks: &Marks, at: Place) -> bool
    requires marks { AreMarksOf p.now marks.now }
    requires word { is_word p.now at ≡ true }
    ensures { result ≡ is_landing_of p.now at }
{
    marks.named.contains(at) || follows_link(p, at)
}

/// Whether an opening pair begins at the word at a place.
pub(crate) fn is_opening_pair(p: &Program, marks: &Marks, at: Place) -> bool
    requires marks { AreMarksOf p.now marks.now }
    requires word { is_word p.now at ≡ true }
    requires room { at.off + 4 < 2 ^ 32 }
    ensures { result ≡ is_opening_pair_of p.now at }
{
    if !is_adjacent(p, at) || !is_landing(p, marks, at) {
        return false;
    }
    at.off < 8
        || !is_adjacent(
            p,
            Place {
                obj: at.obj,
                off: at.off - 8,
            },
        )
}

// Whether the two words before a place are an opening pair.
fn follows_opening_pair(p: &Program, marks: &Marks, at: Place) -> bool
    requires marks { AreMarksOf p.now marks.now }
    requires word { is_word p.now at ≡ true }
    ensures { result ≡ (nat_le 8 at.off && is_opening_pair_of p.now (record at { off = at.off - 8 })) }
{
    at.off >= 8
        && is_opening_pair(
            p,
            marks,
            Place {
                obj: at.obj,
                off: at.off - 8,
            },
        )
}

/// Whether a block begins at the word at a place.
pub(crate) fn begins(p: &Program, marks: &Marks, at: Place) -> bool
    requires marks { AreMarksOf p.now marks.now }
    requires word { is_word p.now at ≡ true }
    ensures { result ≡ begins_of p.now at }
{
    at.off == 0
        || is_landing(p, marks, at)
        || marks.branched.contains(at)
        || follows_end(p, at)
        || follows_opening_pair(p, marks, at)
}
