// What is wrong at the relocations of objects.
ghost use Rattle.std.specs.Prelude.{◌≡◌, ◌<◌, ◌≤◌, ◌+◌, ◌/◌, ◌-ℤ◌, ◌^◌, pos, length, fold, IfOk};
ghost use Rattle.om_fields.specs.Places.{round_up};
ghost use Rattle.om_resolve.specs.Names.{object_at};
ghost use Rattle.om_resolve.specs.declared.finding.Scan.TheVariants.{Names, Targets, Reach};
ghost use Rattle.om_resolve.specs.Targets.{common_size as size_of_common, section_size as size_of_section};
ghost use Rattle.om_resolve.specs.Findings.{better as better_of, first_found};
ghost use Rattle.om_resolve.specs.Causes.{is_reference as references, nameless_at as nameless_there, region_size as size_of_region, is_no_gp_target as no_gp_target, is_no_code as no_code, rule_broken as broken_rule, broken_at as broken_there, index_of, distance as distance_of, reaches as reaches_by, far_at as far_there, found_at as found_there, found_in_section, found_in_object, found_in};
ghost use Rattle.om_resolve.specs.Linked.{IsLinked};

use crate::aims::{branch_target, code, gp_target, place, quad_target};
use crate::definition::Definition;
use crate::finding::{Finding, Scan, better};
use crate::linked::{Linked, parts, section_in};
use om_io::NoMemory;
use om_object::kinds::{has_target, is_braddr};
use om_object::words::offset;
use om_object::{Object, Section};
use om_reloc::{Reloc, RelocKind};
use om_value::{Place, Region, Target};

fn is_reference(r: &Reloc) -> bool
    ensures { result ≡ references r.now }
{
    r.external && has_target(r.kind)
}

/// A name without a definition that a relocation of an object references.
fn nameless_at(l: &Linked<'_>, obj: u32, r: &Reloc) -> Option<Finding>
    requires { IsLinked l.now }
    ensures { result ≡ nameless_there l.now.objects.now obj r.now }
{
    if !is_reference(r) {
        return None;
    }
    match l.number(obj, r.index) {
        None => None,
        Some(number) => match l.definition(number) {
            Definition::Missing => Some(Finding::Nameless { number, file: obj }),
            _ => None,
        },
    }
}

/// A size in bytes, rounded up to a multiple of 8.
pub(crate) fn rounded(size: u64) -> u128
    ensures value { result ≡ round_up size 8 }
    ensures small { result ≤ 2 ^ 65 }
{
    (u128::from(size) + 7) / 8 * 8
}

/// The rounded size of a section of an object.
fn section_size(objects: &[Object], obj: u32, number: u32) -> u128
    ensures { result ≡ size_of_section (object_at objects.now obj) number }
{
    match section_in(objects, obj, number) {
        None => 0,
        Some(s) => rounded(s.size),
    }
}

/// The rounded size of a common; nothing else has one.
pub(crate) fn common_size(definition: Definition) -> u128
    ensures value { result ≡ size_of_common definition }
    ensures small { result ≤ 2 ^ 65 }
{
    match definition {
        Definition::AsCommon { size, .. } => rounded(size),
        _ => 0,
    }
}

#[tactic(auto, using(crate::proofs::Meanings::definition_there))]
fn region_size(l: &Linked<'_>, region: Region) -> u128
    requires { IsLinked l.now }
    ensures { result ≡ size_of_region l.now.objects.now region }
{
    match region {
        Region::Sec { obj, number } => section_size(l.objects, obj, u32::from(number)),
        Region::Common { sym } => common_size(l.definition(sym)),
        _ => 0,
    }
}

/// Whether a distance from the GP value may not lead to a target.
fn is_no_gp_target(l: &Linked<'_>, target: Option<Target>) -> bool
    requires { IsLinked l.now }
    ensures { result ≡ no_gp_target l.now.objects.now target }
{
    match target {
        None => true,
        Some(Target::Num(_)) => true,
        Some(Target::Ptr { region, off }) => region_size(l, region) < u128::from(off),
        Some(Target::Code(_)) => false,
    }
}

/// The rule that an external relocation breaks.
fn rule_broken(l: &Linked<'_>, obj: u32, s: &Section, r: &Reloc) -> Result<Option<u8>, NoMemory>
    requires linked { IsLinked l.now }
    requires there { obj < length l.now.objects.now }
    ensures { IfOk result (λ rule. rule ≡ broken_rule l.now.objects.now obj s.now r.now r.now.kind) }
{
    match r.kind {
        RelocKind::RefQuad => {
            let target = quad_target(l, obj, s, r)?;
            Ok(if target.is_none() { Some(27) } else { None })
        }
        RelocKind::GpRel32 => {
            let target = gp_target(l, obj, s, r)?;
            Ok(if is_no_gp_target(l, target) {
                Some(27)
            } else {
                None
            })
        }
        RelocKind::BrAddr => {
            let target = branch_target(l, obj, s, r)?;
            Ok(if code(target).is_none() {
                Some(28)
            } else {
                None
            })
        }
        _ => Ok(None),
    }
}

/// A rule that a relocation breaks.
fn broken_at(l: &Linked<'_>, obj: u32, s: &Section, r: &Reloc) -> Result<Option<Finding>, NoMemory>
    requires linked { IsLinked l.now }
    requires there { obj < length l.now.objects.now }
    ensures { IfOk result (λ found. found ≡ broken_there l.now.objects.now obj s.now r.now) }
{
    if !r.external {
        return Ok(None);
    }
    match rule_broken(l, obj, s, r)? {
        None => Ok(None),
        Some(rule) => Ok(Some(Finding::Broken {
            file: obj,
            rule,
            at: r.place,
        })),
    }
}

/// How many words of the program stand before a place.
fn index(l: &Linked<'_>, q: Place) -> u64
    requires { IsLinked l.now }
    ensures value { result ≡ index_of l.now.objects.now q }
    ensures small { result < 2 ^ 33 }
{
    u64::from(l.start(q.obj)) + u64::from(q.off / 4)
}

/// How many words lie between the word after a place and another place.
fn distance(l: &Linked<'_>, p: Place, q: Place) -> i64
    requires { IsLinked l.now }
    ensures { result ≡ distance_of l.now.objects.now p q }
{
    index(l, q) as i64 - index(l, p) as i64 - 1
}

/// Whether a branch reaches so many words.
fn reaches(words: i64) -> bool
    ensures { result ≡ reaches_by words }
{
    -1_048_576 <= words && words < 1_048_576
}

/// A branch that does not reach its target.
fn far_at(l: &Linked<'_>, obj: u32, s: &Section, r: &Reloc) -> Result<Option<Finding>, NoMemory>
    requires { IsLinked l.now }
    ensures { IfOk result (λ found. found ≡ far_there l.now.objects.now obj s.now r.now) }
{
    if !r.external {
        return Ok(None);
    }
    if !is_braddr(r.kind) {
        return Ok(None);
    }
    match code(branch_target(l, obj, s, r)?) {
        None => Ok(None),
        Some(to) => {
            let from = place(obj, offset(s, r))?;
            let words = distance(l, from, to);
            if reaches(words) {
                return Ok(None);
            }
            Ok(Some(Finding::Far { from, words }))
        }
    }
}

/// What is found at a relocation.
fn found_at(
    l: &Linked<'_>,
    scan: Scan,
    obj: u32,
    s: &Section,
    r: &Reloc,
) -> Result<Option<Finding>, NoMemory>
    requires linked { IsLinked l.now }
    requires there { obj < length l.now.objects.now }
    ensures { IfOk result (λ found. found ≡ found_there l.now.objects.now scan obj s.now r.now) }
{
    match scan {
        Scan::Names => Ok(nameless_at(l, obj, r)),
        Scan::Targets => broken_at(l, obj, s, r),
        Scan::Reach => far_at(l, obj, s, r),
    }
}

/// The first of what is found so far and in a section.
#[tactic(auto, using(crate::proofs::Steps::each_more, crate::proofs::Steps::fold_append), unfolding(crate::specs::Causes::found_in_section))]
fn first_in_section(
    l: &Linked<'_>,
    scan: Scan,
    obj: u32,
    s: &Section,
    best: Option<Finding>,
) -> Result<Option<Finding>, NoMemory>
    requires linked { IsLinked l.now }
    requires there { obj < length l.now.objects.now }
    ensures { IfOk result (λ found. found ≡ fold better_of best (found_in_section l.now.objects.now scan obj s.now)) }
{
    let relocs = s.relocs.as_slice();
    let mut first = best;
    for k in 0..relocs.len() {
        let r = relocs[k];
        first = better(first, found_at(l, scan, obj, s, &r)?);
    }
    Ok(first)
}

/// The first of what is found so far and in an object.
#[tactic(auto, using(crate::proofs::Steps::joined_more, crate::proofs::Steps::fold_append, crate::proofs::Steps::item_any), unfolding(crate::specs::Causes::found_in_object))]
fn first_in_object(
    l: &Linked<'_>,
    scan: Scan,
    obj: u32,
    best: Option<Finding>,
) -> Result<Option<Finding>, NoMemory>
    requires linked { IsLinked l.now }
    requires there { obj < length l.now.objects.now }
    ensures { IfOk result (λ found. found ≡ fold better_of best (found_in_object l.now.objects.now scan obj)) }
{
    let sections = parts(l.objects, obj).sections.as_slice();
    let mut first = best;
    for a in 0..sections.len() {
        first = first_in_section(l, scan, obj, &sections[a], first)?;
    }
    Ok(first)
}

/// The first of what is found in all objects.
#[tactic(auto, using(crate::proofs::Steps::joined_more, crate::proofs::Steps::fold_append), unfolding(crate::specs::Causes::found_in))]
pub(crate) fn first_in(l: &Linked<'_>, scan: Scan) -> Result<Option<Finding>, NoMemory>
    requires { IsLinked l.now }
    ensures { IfOk result (λ found. found ≡ first_found (found_in l.now.objects.now scan)) }
{
    let mut first = None;
    for obj in 0..l.objects.len() {
        first = first_in_object(l, scan, obj as u32, first)?;
    }
    Ok(first)
}
