// What is known of the parts of a program while they are tested: which places are words, and which regions there are.
ghost use Rattle.std.specs.Prelude.{◌≡◌, ◌↔◌, ◌==◌, ◌≤◌, ◌+◌, Some, IsTrue, IfSome, ◌⊎◌, ℕ, List, length, count_by};
ghost use Rattle.om_value.specs.declared.value.Region.{Region as AnyRegion};
ghost use Rattle.om_prog.specs.declared.item.Item.{Item as AnyItem};
ghost use Rattle.om_prog.specs.View.{ProgramView, item_at, is_word};
ghost use Rattle.om_prog.specs.Valid.{has_region, is_target, is_high, is_near_target, width_of, fits, is_low_of, IsField};
ghost use Rattle.om_prog.specs.Known.{IsKnown};
ghost use Rattle.om_prog.specs.Claims.{IsPlaced};

use crate::item::{Field, Item, Role};
use crate::keys::RegionSizes;
use crate::words::word_at;
use om_isa::{Instr, MemOp};
use om_value::{Place, Region, Target, Value};

/// The texts, and the sizes of the regions.
#[derive(Drop)]
pub(crate) struct Known<'a> {
    pub(crate) texts: &'a [Vec<Item>],
    pub(crate) sizes: RegionSizes,
}

impl Known<'_> {
    /// The word at a place.
    fn item(&self, p: Place) -> Option<Item>
        ensures { (v : ProgramView) → IsKnown self.now v → result ≡ item_at v p }
    {
        word_at(self.texts, p)
    }

    /// Whether a place is that of a word.
    pub(crate) fn has_word(&self, p: Place) -> bool
        ensures { (v : ProgramView) → IsKnown self.now v → result ≡ is_word v p }
    {
        self.item(p).is_some()
    }

    /// Whether a region is there.
    fn has_region(&self, r: Region) -> bool
        ensures { (v : ProgramView) → IsKnown self.now v → result ≡ has_region v r }
    {
        self.sizes.size(r).is_some()
    }

    /// Whether what a target names is there.
    fn has_target(&self, t: Target) -> bool
        ensures { (v : ProgramView) → IsKnown self.now v → result ≡ is_target v t }
    {
        match t {
            Target::Num(_) => true,
            Target::Ptr { region, .. } => self.has_region(region),
            Target::Code(p) => self.has_word(p),
        }
    }

    /// Whether a place is that of the high half of a pair.
    fn has_high(&self, p: Place) -> bool
        ensures { (v : ProgramView) → IsKnown self.now v → result ≡ is_high (item_at v p) }
    {
        match self.item(p) {
            Some(
                Item {
                    role: Role::GpHi { .. },
                    ..
                },
            ) => true,
            _ => false,
        }
    }

    /// Whether the role may stand on the instruction of the word at a place of a text. `named` says whether just one
    /// low half of the text names the place.
    pub(crate) fn fits(&self, named: bool, at: Place, role: Role, instr: Instr) -> bool
        ensures { (v : ProgramView) (text : List AnyItem) → IsKnown self.now v → named ≡ (count_by (is_low_of at) text == 1)
            → result ≡ fits v text at role instr }
    {
        match (role, instr) {
            (Role::Plain, Instr::Branch { .. }) => false,
            (Role::Plain, _) => true,
            (Role::Lit(t), Instr::Mem { op: MemOp::Ldq, .. }) => self.has_target(t),
            (
                Role::GpHi { base },
                Instr::Mem {
                    op: MemOp::Ldah,
                    ..
                },
            ) => self.has_word(base) && named,
            (Role::GpLo { hi }, Instr::Mem { op: MemOp::Lda, .. }) => hi.obj == at.obj
                && self.has_high(hi),
            (Role::To(q), Instr::Branch { .. }) => self.has_word(q),
            _ => false,
        }
    }

    /// Whether a distance from a global pointer may lead to a target.
    fn is_near(&self, t: Target) -> bool
        ensures { (v : ProgramView) → IsKnown self.now v → result ≡ is_near_target v t }
    {
        match t {
            Target::Num(_) => false,
            Target::Ptr { region, off } => match self.sizes.size(region) {
                Some(size) => off <= size,
                None => false,
            },
            Target::Code(p) => self.has_word(p),
        }
    }

    /// The width of a field of a value, if there may be one.
    fn width_of(&self, value: Value) -> Option<u8>
        ensures value { (v : ProgramView) → IsKnown self.now v → result ≡ width_of v value }
        ensures range { IfSome result (λ w. (w ≡ 4) ⊎ (w ≡ 8)) }
    {
        match value {
            Value::Num(_) => Some(8),
            Value::Ptr { region, .. } => {
                if self.has_region(region) {
                    Some(8)
                } else {
                    None
                }
            }
            Value::Code(p) => { if self.has_word(p) { Some(8) } else { None } }
            Value::GpOff { obj, target } => {
                if (obj as usize) < self.texts.len() && self.is_near(target) {
                    Some(4)
                } else {
                    None
                }
            }
            Value::Gp(_) | Value::Half(_) => None,
        }
    }

    /// Whether a field may stand in a region of a size.
    pub(crate) fn is_field(&self, size: u64, f: &Field) -> bool
        ensures value { (v : ProgramView) → IsKnown self.now v → IsTrue result ↔ IsField v size f.now }
        ensures placed { IsTrue result → IsPlaced f.now }
    {
        let width = u64::from(f.width);
        match self.width_of(f.value) {
            Some(w) => w == f.width && f.off % width == 0 && width <= size && f.off <= size - width,
            None => false,
        }
    }
}
