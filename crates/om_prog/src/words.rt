// Words of texts.
ghost use Rattle.std.specs.Prelude.{◌≡◌, ◌↔◌, Some, IsTrue};
ghost use Rattle.om_isa.specs.Words.{instr_of};
ghost use Rattle.om_prog.specs.View.{item_in, items_lists};

use crate::item::Item;
use om_isa::{Instr, encode};
use om_value::Place;

/// The word at a place of these texts, if it is one.
pub(crate) fn word_at(texts: &[Vec<Item>], p: Place) -> Option<Item>
    ensures { result ≡ item_in (items_lists texts.now) p }
{
    if p.off % 4 != 0 {
        return None;
    }
    let text = texts.get(p.obj as usize)?;
    text.get((p.off / 4) as usize).copied()
}

/// Whether a word has an instruction.
pub(crate) fn has_instr(w: u32, i: &Instr) -> bool
    ensures { IsTrue result ↔ (instr_of w ≡ Some i.now) }
{
    encode(i) == w
}
