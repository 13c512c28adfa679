// Chains of passes: the first rule of a group that is broken, with its least place.
ghost use Rattle.std.specs.Prelude.{◌≡◌, ◌≤◌, ◌+◌, ◌*◌, ◌++◌, length, IfOk, IfNone, None, is_some};
ghost use Rattle.om_fields.specs.Places.{least, each};
ghost use Rattle.om_fields.specs.Rules.{first_fault};
ghost use Rattle.om_fields.specs.HeaderFields.{section_count, head_of};
ghost use Rattle.om_object.specs.Rules.{part_rule_12, part_rule_16, rules_9_to_12, rules_13_to_17, rules_21_to_23, rules_9_to_23};
ghost use Rattle.om_object.specs.Spots.{places_of, first_spot};
ghost use Rattle.om_object.specs.Passes.{IsPlaced};
ghost use Rattle.om_object.specs.File.{last_spot};

use crate::flags::is_there;
use crate::origin::Origins;
use crate::parts::Parts;
use crate::passes::{least_found, least_section, least_symbol, lesser};
use crate::rules::{Pass, RelocRule, SectionRule, SymbolRule, TableRule};
use crate::tables::first_table;
use om_fields::{SecHead, other_section};
use om_io::NoMemory;
use std::alloc::Global;

// Rule 12.
fn mistargeted(alloc: Global, p: &Parts, o: &Origins) -> Result<Option<u64>, NoMemory>
    requires { IsPlaced p.now o.now }
    ensures { IfOk result (λ at. at ≡ least (places_of o.now (part_rule_12 p.now))) }
{
    let of_relocs = least_found(alloc, p, o, Pass::Entry(RelocRule::Targeted))?;
    Ok(lesser(least_symbol(p, o, SymbolRule::Misvalued), of_relocs))
}

// Rule 16.
fn astray(alloc: Global, p: &Parts, o: &Origins) -> Result<Option<u64>, NoMemory>
    requires { IsPlaced p.now o.now }
    ensures { IfOk result (λ at. at ≡ least (places_of o.now (part_rule_16 p.now))) }
{
    let of_relocs = least_found(alloc, p, o, Pass::Entry(RelocRule::Branching))?;
    let of_words = least_found(alloc, p, o, Pass::Astray)?;
    Ok(lesser(of_relocs, of_words))
}

fn fault_9_to_12(alloc: Global, p: &Parts, o: &Origins) -> Result<Option<(u8, u64)>, NoMemory>
    requires { IsPlaced p.now o.now }
    ensures { IfOk result (λ fault. fault ≡ first_spot rules_9_to_12 p.now o.now) }
{
    if let Some(at) = least_found(alloc, p, o, Pass::Entry(RelocRule::Inside))? {
        return Ok(Some((9, at)));
    }
    if let Some(at) = least_found(alloc, p, o, Pass::Entry(RelocRule::Aligned))? {
        return Ok(Some((10, at)));
    }
    if let Some(at) = least_found(alloc, p, o, Pass::Entry(RelocRule::Named))? {
        return Ok(Some((11, at)));
    }
    if let Some(at) = mistargeted(alloc, p, o)? {
        return Ok(Some((12, at)));
    }
    Ok(None)
}

fn fault_13_to_17(alloc: Global, p: &Parts, o: &Origins) -> Result<Option<(u8, u64)>, NoMemory>
    requires { IsPlaced p.now o.now }
    ensures { IfOk result (λ fault. fault ≡ first_spot rules_13_to_17 p.now o.now) }
{
    if let Some(at) = least_found(alloc, p, o, Pass::Entry(RelocRule::Paired))? {
        return Ok(Some((13, at)));
    }
    if let Some(at) = least_found(alloc, p, o, Pass::Entry(RelocRule::Slotted))? {
        return Ok(Some((14, at)));
    }
    if let Some(at) = least_found(alloc, p, o, Pass::Unled)? {
        return Ok(Some((15, at)));
    }
    if let Some(at) = astray(alloc, p, o)? {
        return Ok(Some((16, at)));
    }
    if let Some(at) = least_found(alloc, p, o, Pass::Shared)? {
        return Ok(Some((17, at)));
    }
    Ok(None)
}

fn fault_21_to_23(alloc: Global, p: &Parts, o: &Origins) -> Result<Option<(u8, u64)>, NoMemory>
    requires { IsPlaced p.now o.now }
    ensures { IfOk result (λ fault. fault ≡ first_spot rules_21_to_23 p.now o.now) }
{
    if let Some(at) = least_found(alloc, p, o, Pass::Unreadable)? {
        return Ok(Some((21, at)));
    }
    if let Some(at) = least_found(alloc, p, o, Pass::Entry(RelocRule::Known))? {
        return Ok(Some((22, at)));
    }
    if let Some(at) = least_found(alloc, p, o, Pass::Entry(RelocRule::Placed))? {
        return Ok(Some((23, at)));
    }
    Ok(None)
}

/// The first fault of parts by the rules 9 to 23.
pub fn part_fault(alloc: Global, p: &Parts, o: &Origins) -> Result<Option<(u8, u64)>, NoMemory>
    requires { IsPlaced p.now o.now }
    ensures { IfOk result (λ fault. fault ≡ first_spot rules_9_to_23 p.now o.now) }
{
    let first = fault_9_to_12(alloc, p, o)?;
    if is_there(first) {
        return Ok(first);
    }
    let second = fault_13_to_17(alloc, p, o)?;
    if is_there(second) {
        return Ok(second);
    }
    let third = fault_21_to_23(alloc, p, o)?;
    Ok(third)
}

/// The first fault of a file and its parts by the rules 24, 25, 26 and 29.
pub fn last_fault(
    alloc: Global,
    bytes: &[u8],
    heads: &[SecHead],
    p: &Parts,
    o: &Origins,
) -> Result<Option<(u8, u64)>, NoMemory>
    requires long { 104 + 64 * section_count bytes.now ≤ length bytes.now }
    requires heads { heads.now ≡ each (head_of bytes.now) (section_count bytes.now) }
    requires placed { IsPlaced p.now o.now }
    ensures { IfOk result (λ fault. fault ≡ last_spot bytes.now p.now o.now) }
{
    if let Some(at) = other_section(bytes) {
        return Ok(Some((24, at)));
    }
    if let Some(at) = least_section(p, o, SectionRule::Uneven) {
        return Ok(Some((25, at)));
    }
    if let Some(at) = first_table(TableRule::Over, bytes, heads) {
        return Ok(Some((26, at)));
    }
    if let Some(at) = least_found(alloc, p, o, Pass::Entry(RelocRule::Natural))? {
        return Ok(Some((29, at)));
    }
    Ok(None)
}
