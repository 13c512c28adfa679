// How many words of text stand before an object.
ghost use Rattle.std.specs.Prelude.{◌≡◌, ◌<◌, ◌+◌, ◌/◌, ◌^◌, length, sum_by, IfOk};
ghost use Rattle.om_fields.specs.Places.{each};
ghost use Rattle.om_object.specs.Words.{section_of};
ghost use Rattle.om_resolve.specs.Causes.{text_size as size_of_text, text_words};
ghost use Rattle.om_resolve.specs.Laws.{AreObjects};
ghost use Rattle.om_resolve.specs.Linked.{words_before};

use om_io::NoMemory;
use om_object::words::section;
use om_object::{Object, Parts};
use std::alloc::Global;

/// The bytes of an object's text.
pub(crate) fn text_size(p: &Parts) -> u64
    ensures { result ≡ size_of_text p.now }
{
    match section(p, 1) {
        None => 0,
        Some(t) => t.size,
    }
}

/// How many words of text stand in the objects before each, and in all, of objects that break no rule. More than 32
/// bits hold is taken as want of memory.
pub(crate) fn text_starts(alloc: Global, objects: &[Object]) -> Result<(Vec<u32>, u32), NoMemory>
    ensures starts { IfOk result (λ r. r.0.items ≡ each (words_before objects.now) (length objects.now)) }
    ensures words { IfOk result (λ r. r.1 ≡ sum_by text_words objects.now) }
    ensures sound { IfOk result (λ r. AreObjects objects.now) }
{
    let mut starts = Vec::new(alloc);
    let mut words: u32 = 0;
    for i in 0..objects.len() {
        starts.push(words)?;
        let more = text_size(objects[i].parts()) / 4;
        if more >= 0x1_0000_0000 - u64::from(words) {
            return Err(NoMemory);
        }
        words += more as u32;
    }
    Ok((starts, words))
}
