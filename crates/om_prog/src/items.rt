// Words of texts, each tested.
ghost use Rattle.std.specs.Prelude.{◌≡◌, ◌↔◌, ◌==◌, ◌<◌, ◌^◌, IsTrue, IfOk, List, length, count_by};
ghost use Rattle.om_prog.specs.declared.item.Item.{Item as AnyItem};
ghost use Rattle.om_prog.specs.View.{ProgramView, items_lists};
ghost use Rattle.om_prog.specs.Valid.{is_low_of, IsItem, AreItems, IsText, AreTexts};
ghost use Rattle.om_prog.specs.Known.{IsKnown};
ghost use Rattle.om_prog.specs.Making.{AreMarks};

use crate::finding::{has_few_slots, low_marks};
use crate::item::Item;
use crate::known::Known;
use crate::words::has_instr;
use om_io::NoMemory;
use om_value::Place;
use std::alloc::Global;

/// Whether a word has its instruction, and a role that may stand on it. `named` says whether just one low half of its
/// text names its place.
fn is_item(known: &Known<'_>, named: bool, at: Place, item: &Item) -> bool
    ensures { (v : ProgramView) (text : List AnyItem) → IsKnown known.now v → named ≡ (count_by (is_low_of at) text == 1)
        → IsTrue result ↔ IsItem v text at item.now }
{
    has_instr(item.word, &item.instr) && known.fits(named, at, item.role, item.instr)
}

/// Whether all words of a text are so.
fn are_items(known: &Known<'_>, obj: u32, text: &[Item], marks: &[u8]) -> bool
    requires short { length text.now < 2 ^ 30 }
    requires marked { AreMarks obj text.now text.now marks.now }
    ensures { (v : ProgramView) → IsKnown known.now v → IsTrue result ↔ AreItems v obj text.now }
{
    for i in 0..text.len() {
        let at = Place {
            obj,
            off: 4 * (i as u32),
        };
        if !is_item(known, marks[i] == 1, at, &text[i]) {
            return false;
        }
    }
    true
}

/// Whether a text is one of a program.
fn is_text(alloc: Global, known: &Known<'_>, obj: u32, text: &[Item]) -> Result<bool, NoMemory>
    ensures { (v : ProgramView) → IsKnown known.now v → IfOk result (λ ok. IsTrue ok ↔ IsText v obj text.now) }
{
    if text.len() >= 0x4000_0000 {
        return Ok(false);
    }
    if !has_few_slots(alloc, text)? {
        return Ok(false);
    }
    let marks = low_marks(alloc, obj, text)?;
    Ok(are_items(known, obj, text, marks.as_slice()))
}

/// Whether all texts are those of a program.
pub(crate) fn are_texts(alloc: Global, known: &Known<'_>) -> Result<bool, NoMemory>
    requires { length known.now.texts.now < 2 ^ 32 }
    ensures { (v : ProgramView) → IsKnown known.now v → IfOk result (λ ok. IsTrue ok ↔ AreTexts v) }
{
    for obj in 0..known.texts.len() {
        let text = known.texts[obj].as_slice();
        if !is_text(alloc, known, obj as u32, text)? {
            return Ok(false);
        }
    }
    Ok(true)
}
