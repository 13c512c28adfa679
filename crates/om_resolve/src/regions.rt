// The regions of programs.
ghost use Rattle.std.specs.Prelude.{◌≡◌, ◌<◌, ◌≤◌, ◌^◌, ◌++◌, length, IfOk, OnOk};
ghost use Rattle.om_fields.specs.Places.{joined, round_up};
ghost use Rattle.om_resolve.specs.Names.{names_of};
ghost use Rattle.om_resolve.specs.Program.{region_of, region_at, regions_of, common_region, common_at, program_of};
ghost use Rattle.om_resolve.specs.Linked.{IsLinked};

use crate::definition::Definition;
use crate::fields::fields_of;
use crate::linked::{Linked, section_in};
use om_io::{Bytes, Listed, NoMemory};
use om_object::Section;
use om_prog::RegionInit;
use om_value::Region;
use std::alloc::Global;

/// The numbers of the sections that are regions: all loaded ones but `.text` and `.lita`.
const REGIONS: [u8; 8] = [2, 3, 4, 5, 6, 8, 9, 15];

/// A size in bytes, rounded up to a multiple of 8; one that 64 bits do not hold is taken as want of memory.
fn rounded(size: u64) -> Result<u64, NoMemory>
    ensures { IfOk result (λ n. n ≡ round_up size 8) }
{
    if size <= 0xffff_ffff_ffff_fff8 {
        return Ok((size + 7) / 8 * 8);
    }
    Err(NoMemory)
}

/// A section as a region.
fn region(
    alloc: Global,
    l: &Linked<'_>,
    obj: u32,
    number: u8,
    s: &Section,
) -> Result<RegionInit, NoMemory>
    requires linked { IsLinked l.now }
    requires there { obj < length l.now.objects.now }
    ensures { IfOk result (λ i. i ≡ region_of l.now.objects.now obj number s.now) }
{
    let size = rounded(s.size)?;
    let bytes = s.bytes.as_slice().to_vec(alloc)?;
    let fields = fields_of(alloc, l, obj, s)?;
    Ok(RegionInit {
        region: Region::Sec { obj, number },
        size,
        zero: number == 5 || number == 6,
        bytes: Bytes::from_vec(bytes),
        fields: Listed::from_vec(fields),
    })
}

/// Adds the region of a number of an object, where it has it.
#[tactic(auto, unfolding(crate::specs::Program::region_at))]
fn add_region(
    alloc: Global,
    regions: &mut Vec<RegionInit>,
    l: &Linked<'_>,
    obj: u32,
    number: u8,
) -> Result<(), NoMemory>
    requires linked { IsLinked l.now }
    requires there { obj < length l.now.objects.now }
    ensures { OnOk result (regions.new.items ≡ regions.old.items ++ region_at l.now.objects.now obj number) }
{
    match section_in(l.objects, obj, u32::from(number)) {
        None => Ok(()),
        Some(s) => {
            let init = region(alloc, l, obj, number, s)?;
            regions.push(init)?;
            Ok(())
        }
    }
}

/// Adds the regions of an object.
#[tactic(auto, using(crate::proofs::Steps::joined_more, crate::proofs::Steps::append_append), unfolding(crate::specs::Program::regions_of))]
fn add_regions(
    alloc: Global,
    regions: &mut Vec<RegionInit>,
    l: &Linked<'_>,
    obj: u32,
) -> Result<(), NoMemory>
    requires linked { IsLinked l.now }
    requires there { obj < length l.now.objects.now }
    ensures { OnOk result (regions.new.items ≡ regions.old.items ++ regions_of l.now.objects.now obj) }
{
    for k in 0..8 {
        add_region(alloc, regions, l, obj, REGIONS[k])?;
    }
    Ok(())
}

/// Adds the region of a common.
fn add_common(
    alloc: Global,
    regions: &mut Vec<RegionInit>,
    definition: Definition,
) -> Result<(), NoMemory>
    ensures { OnOk result (regions.new.items ≡ regions.old.items ++ common_region definition) }
{
    match definition {
        Definition::AsCommon { sym, size } => {
            let size = rounded(size)?;
            regions.push(RegionInit {
                region: Region::Common { sym },
                size,
                zero: true,
                bytes: Bytes::from_vec(Vec::new(alloc)),
                fields: Listed::from_vec(Vec::new(alloc)),
            })?;
            Ok(())
        }
        _ => Ok(()),
    }
}

/// Adds the commons that define names, by the names' numbers.
#[tactic(auto, using(crate::proofs::Steps::joined_more, crate::proofs::Steps::append_append, crate::proofs::Meanings::definition_there))]
fn add_commons(alloc: Global, regions: &mut Vec<RegionInit>, l: &Linked<'_>) -> Result<(), NoMemory>
    requires { IsLinked l.now }
    ensures { OnOk result (regions.new.items ≡ regions.old.items ++ joined (common_at l.now.objects.now) (length (names_of l.now.objects.now))) }
{
    for k in 0..l.known.len() {
        add_common(alloc, regions, l.definition(k as u32))?;
    }
    Ok(())
}

/// The regions of all sections, by object and number, and then the commons.
#[tactic(auto, using(crate::proofs::Steps::joined_more), unfolding(crate::specs::Program::program_of))]
pub(crate) fn regions(alloc: Global, l: &Linked<'_>) -> Result<Vec<RegionInit>, NoMemory>
    requires { IsLinked l.now }
    ensures { IfOk result (λ v. v.items ≡ (program_of l.now.objects.now).regions) }
{
    let mut all = Vec::new(alloc);
    for obj in 0..l.objects.len() {
        add_regions(alloc, &mut all, l, obj as u32)?;
    }
    add_commons(alloc, &mut all, l)?;
    Ok(all)
}
