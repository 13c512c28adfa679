// Whether parts are those of a program.
ghost use Rattle.std.specs.Prelude.{◌≡◌, ◌↔◌, ◌<◌, ◌^◌, IsTrue, IfOk, Some, ℕ, List, length};
ghost use Rattle.std.specs.List.{slice_get};
ghost use Rattle.om_prog.specs.declared.item.Field.{Field as AnyField};
ghost use Rattle.om_prog.specs.View.{ProgramView, items_lists};
ghost use Rattle.om_prog.specs.Valid.{HasForm, IsField, AreFields, IsRegionInit, AreRegions, IsProgram};
ghost use Rattle.om_prog.specs.Known.{IsKnown};
ghost use Rattle.om_prog.specs.Claims.{IsPlaced};

use crate::claims::are_apart;
use crate::finding::sizes_of;
use crate::item::{Field, Item};
use crate::items::are_texts;
use crate::known::Known;
use crate::region::RegionInit;
use om_io::NoMemory;
use om_value::{Place, Region};
use std::alloc::Global;

/// Whether each of these fields may stand in a region of a size.
fn each_fits(known: &Known<'_>, size: u64, fields: &[Field]) -> bool
    ensures value { (v : ProgramView) → IsKnown known.now v
        → IsTrue result ↔ ((k : ℕ) (f : AnyField) → slice_get fields.now k ≡ Some f → IsField v size f) }
    ensures placed { IsTrue result → (k : ℕ) (f : AnyField) → slice_get fields.now k ≡ Some f → IsPlaced f }
{
    for i in 0..fields.len() {
        if !known.is_field(size, &fields[i]) {
            return false;
        }
    }
    true
}

/// Whether these fields may stand together in a region of a size.
fn are_fields(
    alloc: Global,
    known: &Known<'_>,
    size: u64,
    fields: &[Field],
) -> Result<bool, NoMemory>
    ensures { (v : ProgramView) → IsKnown known.now v → IfOk result (λ ok. IsTrue ok ↔ AreFields v size fields.now) }
{
    if !each_fits(known, size, fields) {
        return Ok(false);
    }
    let apart = are_apart(alloc, fields)?;
    Ok(apart)
}

/// Whether a region has what it must have apart from its fields.
fn has_form(init: &RegionInit) -> bool
    ensures { IsTrue result ↔ HasForm init.now }
{
    let given = !matches!(init.region, Region::Stack | Region::Heap);
    let bytes = init.bytes.as_slice().len();
    let fields = init.fields.as_slice().len();
    given
        && init.size % 8 == 0
        && bytes as u64 <= init.size
        && (!init.zero || (bytes == 0 && fields == 0))
}

/// Whether a region is one of a program.
fn is_region(alloc: Global, known: &Known<'_>, init: &RegionInit) -> Result<bool, NoMemory>
    ensures { (v : ProgramView) → IsKnown known.now v → IfOk result (λ ok. IsTrue ok ↔ IsRegionInit v init.now) }
{
    if !has_form(init) {
        return Ok(false);
    }
    let fit = are_fields(alloc, known, init.size, init.fields.as_slice())?;
    Ok(fit)
}

/// Whether all regions are those of a program.
fn are_regions(alloc: Global, known: &Known<'_>, regions: &[RegionInit]) -> Result<bool, NoMemory>
    ensures { (v : ProgramView) → IsKnown known.now v → v.regions ≡ regions.now
        → IfOk result (λ ok. IsTrue ok ↔ AreRegions v) }
{
    for i in 0..regions.len() {
        if !is_region(alloc, known, &regions[i])? {
            return Ok(false);
        }
    }
    Ok(true)
}

/// Whether texts, regions and an entry are a program.
pub(crate) fn is_program(
    alloc: Global,
    texts: &[Vec<Item>],
    regions: &[RegionInit],
    entry: Place,
) -> Result<bool, NoMemory>
    ensures { IfOk result (λ ok. IsTrue ok ↔ IsProgram (record { texts = items_lists texts.now; regions = regions.now; entry = entry })) }
{
    if texts.len() >= 0x1_0000_0000 {
        return Ok(false);
    }
    let Some(sizes) = sizes_of(alloc, regions)? else {
        return Ok(false);
    };
    let known = Known { texts, sizes };
    if !known.has_word(entry) {
        return Ok(false);
    }
    if !are_texts(alloc, &known)? {
        return Ok(false);
    }
    are_regions(alloc, &known, regions)
}
