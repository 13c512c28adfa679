// What is found of all regions, and of all words of a text, before each is tested.
ghost use Rattle.std.specs.Prelude.{◌≡◌, ◌+◌, ◌^◌, ◌<◌, length, get_or, ℕ, List, nat_le, IfOk, if◌then◌else◌};
ghost use Rattle.om_value.specs.declared.value.Target.{Target as AnyTarget};
ghost use Rattle.om_prog.specs.Valid.{slots, with_slot, literal_of, names_high, slot_limit};
ghost use Rattle.om_prog.specs.Making.{FindsSizes, HasSlots, AreMarks, up_to_two, word_place};

use crate::item::{Item, Role};
use crate::keys::{RegionSizes, Slots};
use crate::region::RegionInit;
use om_io::NoMemory;
use std::alloc::Global;

/// The sizes of regions, or `None` where one is given twice.
pub(crate) fn sizes_of(
    alloc: Global,
    regions: &[RegionInit],
) -> Result<Option<RegionSizes>, NoMemory>
    ensures { IfOk result (λ found. FindsSizes regions.now found) }
{
    let mut sizes = RegionSizes::new(alloc);
    for i in 0..regions.len() {
        let init = &regions[i];
        if sizes.add(init.region, init.size)? {
            return Ok(None);
        }
    }
    Ok(Some(sizes))
}

// Notes the target of a word. Whether there is one that is new.
fn note(seen: &mut Slots, item: &Item) -> Result<bool, NoMemory>
    ensures slots { (ts : List AnyTarget) → HasSlots seen.old ts → IfOk result (λ new. HasSlots seen.new (with_slot ts (literal_of item.now))) }
    ensures count { (ts : List AnyTarget) → HasSlots seen.old ts
        → IfOk result (λ new. length (with_slot ts (literal_of item.now)) ≡ length ts + (if new then 1 else 0)) }
{
    match item.role {
        Role::Lit(t) => seen.add(t),
        _ => Ok(false),
    }
}

/// Whether the address table of a text needs no more slots than a table may have.
pub(crate) fn has_few_slots(alloc: Global, text: &[Item]) -> Result<bool, NoMemory>
    ensures { IfOk result (λ few. few ≡ nat_le (length (slots text.now)) slot_limit) }
{
    let mut seen = Slots::new(alloc);
    let mut count: usize = 0;
    for i in 0..text.len() {
        if note(&mut seen, &text[i])? {
            count += 1;
        }
    }
    Ok(count <= 8192)
}

// Counts a low half at the word that it names.
fn mark(marks: &mut Vec<u8>, obj: u32, role: Role)
    ensures as_long { length marks.new.items ≡ length marks.old.items }
    ensures each { (k : ℕ) → k < length marks.old.items
        → get_or marks.new.items k 0
        ≡ (if names_high (word_place obj k) role then up_to_two (get_or marks.old.items k 0 + 1) else get_or marks.old.items k 0) }
{
    if let Role::GpLo { hi } = role {
        let k = (hi.off / 4) as usize;
        if hi.obj == obj && hi.off % 4 == 0 && k < marks.len() {
            marks[k] = if marks[k] == 0 { 1 } else { 2 };
        }
    }
}

/// How many low halves of a text name each of its words, with 2 for more.
pub(crate) fn low_marks(alloc: Global, obj: u32, text: &[Item]) -> Result<Vec<u8>, NoMemory>
    ensures { IfOk result (λ marks. AreMarks obj text.now text.now marks.items) }
{
    let mut marks = vec![in alloc; 0u8; text.len()]?;
    for i in 0..text.len() {
        mark(&mut marks, obj, text[i].role);
    }
    Ok(marks)
}
