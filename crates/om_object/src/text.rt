// Passes over the words of a text.
ghost use Rattle.std.specs.Prelude.{◌≡◌, ◌≢◌, ◌<◌, ◌+◌, ◌*◌, ◌/◌, ◌^◌, ◌&&◌, ◌||◌, ◌==◌, length, slice_index_or, IfOk, false, true, ℕ};
ghost use Rattle.om_fields.specs.Places.{least, picked};
ghost use Rattle.om_object.specs.declared.rules.Pass.TheVariants.{Unreadable, Astray};
ghost use Rattle.om_object.specs.Rules.{is_unreadable as unreadable, is_astray as astray, goes_astray as goes, is_branch_field, is_bound};
ghost use Rattle.om_object.specs.Passes.{test_of, indices_of};
ghost use Rattle.om_object.specs.Marks.{AreMarked};

use crate::kinds::is_braddr;
use crate::parts::{Parts, Section};
use crate::words::{branch_disp, instr, is_word, offset, own_target};
use om_io::NoMemory;
use om_reloc::Reloc;
use std::alloc::Global;

fn is_unreadable(s: &Section, off: u64) -> bool
    ensures { result ≡ unreadable s.now off }
{
    instr(s, off).is_none()
}

/// The first word of a text that is no instruction, by its index.
pub fn first_unreadable(p: &Parts, s: &Section) -> Option<usize>
    ensures { result ≡ least (indices_of p.now Unreadable s.now) }
{
    if s.number != 1 {
        return None;
    }
    for k in 0..s.bytes.as_slice().len() / 4 {
        if is_unreadable(s, 4 * k as u64) {
            return Some(k);
        }
    }
    None
}

// Marks the word on which an external BRADDR stands, if it is one of the text's.
fn mark(marks: &mut [bool], s: &Section, r: &Reloc)
    ensures length { length marks.new ≡ length marks.old }
    ensures marked { (k : ℕ) → k < length marks.old → slice_index_or marks.new k false ≡ (slice_index_or marks.old k false || is_branch_field s.now (4 * k) r.now) }
{
    if !is_braddr(r.kind) {
        return;
    }
    if !r.external {
        return;
    }
    let off = offset(s, r);
    if off % 4 != 0 {
        return;
    }
    if off / 4 >= marks.len() as u64 {
        return;
    }
    marks[(off / 4) as usize] = true;
}

// For each word of a section, whether an external BRADDR stands on it.
fn marks(alloc: Global, s: &Section) -> Result<Vec<bool>, NoMemory>
    ensures { IfOk result (λ marks. AreMarked s.now marks.items) }
{
    let mut marks = vec![in alloc; false; s.bytes.as_slice().len() / 4]?;
    for r in s.relocs.as_slice() {
        mark(&mut marks, s, r);
    }
    Ok(marks)
}

fn goes_astray(p: &Parts, off: u64, disp: Option<i32>) -> bool
    ensures { result ≡ goes p.now off disp }
{
    match disp {
        None => false,
        Some(disp) => !is_word(p, own_target(off, disp)),
    }
}

fn is_astray(p: &Parts, s: &Section, off: u64, marked: bool) -> bool
    requires { marked ≡ is_bound s.now off }
    ensures { result ≡ astray p.now s.now off }
{
    if marked {
        return false;
    }
    goes_astray(p, off, branch_disp(instr(s, off)))
}

/// The first branch of a text without an external BRADDR whose target is no word, by the index of its word.
pub fn first_astray(alloc: Global, p: &Parts, s: &Section) -> Result<Option<usize>, NoMemory>
    ensures { IfOk result (λ k. k ≡ least (indices_of p.now Astray s.now)) }
{
    if s.number != 1 {
        return Ok(None);
    }
    let marks = marks(alloc, s)?;
    for k in 0..s.bytes.as_slice().len() / 4 {
        if is_astray(p, s, 4 * k as u64, marks[k]) {
            return Ok(Some(k));
        }
    }
    Ok(None)
}
