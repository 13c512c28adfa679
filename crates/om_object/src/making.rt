// The least rule that parts break, as one pass after another.
ghost use Rattle.std.specs.Prelude.{◌≡◌, ◌||◌, ◌<◌, length, IfOk, is_none, is_some};
ghost use Rattle.om_fields.specs.Places.{least, picked};
ghost use Rattle.om_fields.specs.Sections.{name_of_number};
ghost use Rattle.om_fields.specs.Extents.{is_misplaced};
ghost use Rattle.om_object.specs.Rules.{section_at, extent_of, section_extent, made_rule_6, part_rule_12, part_rule_16, made_front, made_last, rules_9_to_12, rules_13_to_17, rules_21_to_23, made_rules, is_found, first_broken, sections_where, section_breaks, symbols_where, symbol_breaks};

use crate::flags::{either, is_there};
use crate::parts::{Parts, Section};
use crate::passes::{any_found, first_section, first_symbol};
use crate::rules::{Pass, RelocRule, SectionRule, SymbolRule};
use om_fields::{Extent, add_loaded, is_out_of_place};
use om_io::NoMemory;
use std::alloc::Global;

// Whether a number is that of no loaded section.
fn is_nameless(number: u8) -> bool
    ensures { result ≡ is_none (name_of_number number) }
{
    match number {
        1 => false,
        2 => false,
        3 => false,
        4 => false,
        5 => false,
        6 => false,
        8 => false,
        9 => false,
        13 => false,
        15 => false,
        _ => true,
    }
}

// Where a section lies.
fn extent(s: &Section) -> Extent
    ensures { result ≡ extent_of s.now }
{
    Extent {
        number: Some(s.number),
        addr: s.addr,
        size: s.size,
    }
}

// The first section that is none, ends too late or collides with an earlier one, by its index.
fn first_misplaced(alloc: Global, p: &Parts) -> Result<Option<usize>, NoMemory>
    ensures { IfOk result (λ a. a ≡ least (picked (λ i. is_none (name_of_number (section_at p.now i).number) || is_misplaced (section_extent p.now) i) (λ i. i) (length p.now.sections))) }
{
    let sections = p.sections.as_slice();
    let mut loaded = Vec::new(alloc);
    for a in 0..sections.len() {
        let section = &sections[a];
        let range = extent(section);
        if either(
            is_nameless(section.number),
            is_out_of_place(&loaded, &range),
        ) {
            return Ok(Some(a));
        }
        add_loaded(&mut loaded, range)?;
    }
    Ok(None)
}

// Rule 6.
fn any_misplaced(alloc: Global, p: &Parts) -> Result<bool, NoMemory>
    ensures { IfOk result (λ b. b ≡ is_found (made_rule_6 p.now)) }
{
    let found = first_misplaced(alloc, p)?;
    Ok(is_there(found))
}

// A rule on sections.
fn any_section(p: &Parts, rule: SectionRule) -> bool
    ensures { result ≡ is_found (sections_where p.now (section_breaks rule)) }
{
    is_there(first_section(p, rule))
}

// A rule on symbols.
fn any_symbol(p: &Parts, rule: SymbolRule) -> bool
    ensures { result ≡ is_found (symbols_where p.now (symbol_breaks p.now rule)) }
{
    is_there(first_symbol(p, rule))
}

// Rule 12.
fn any_mistargeted(alloc: Global, p: &Parts) -> Result<bool, NoMemory>
    ensures { IfOk result (λ b. b ≡ is_found (part_rule_12 p.now)) }
{
    let of_relocs = any_found(alloc, p, Pass::Entry(RelocRule::Targeted))?;
    Ok(either(any_symbol(p, SymbolRule::Misvalued), of_relocs))
}

// Rule 16.
fn any_astray(alloc: Global, p: &Parts) -> Result<bool, NoMemory>
    ensures { IfOk result (λ b. b ≡ is_found (part_rule_16 p.now)) }
{
    let of_relocs = any_found(alloc, p, Pass::Entry(RelocRule::Branching))?;
    let of_words = any_found(alloc, p, Pass::Astray)?;
    Ok(either(of_relocs, of_words))
}

fn broken_front(alloc: Global, p: &Parts) -> Result<Option<u8>, NoMemory>
    ensures { IfOk result (λ rule. rule ≡ first_broken made_front p.now) }
{
    if any_section(p, SectionRule::Misfilled) {
        return Ok(Some(4));
    }
    if any_misplaced(alloc, p)? {
        return Ok(Some(6));
    }
    if any_symbol(p, SymbolRule::Unwritable) {
        return Ok(Some(8));
    }
    Ok(None)
}

fn broken_9_to_12(alloc: Global, p: &Parts) -> Result<Option<u8>, NoMemory>
    ensures { IfOk result (λ rule. rule ≡ first_broken rules_9_to_12 p.now) }
{
    if any_found(alloc, p, Pass::Entry(RelocRule::Inside))? {
        return Ok(Some(9));
    }
    if any_found(alloc, p, Pass::Entry(RelocRule::Aligned))? {
        return Ok(Some(10));
    }
    if any_found(alloc, p, Pass::Entry(RelocRule::Named))? {
        return Ok(Some(11));
    }
    if any_mistargeted(alloc, p)? {
        return Ok(Some(12));
    }
    Ok(None)
}

fn broken_13_to_17(alloc: Global, p: &Parts) -> Result<Option<u8>, NoMemory>
    ensures { IfOk result (λ rule. rule ≡ first_broken rules_13_to_17 p.now) }
{
    if any_found(alloc, p, Pass::Entry(RelocRule::Paired))? {
        return Ok(Some(13));
    }
    if any_found(alloc, p, Pass::Entry(RelocRule::Slotted))? {
        return Ok(Some(14));
    }
    if any_found(alloc, p, Pass::Unled)? {
        return Ok(Some(15));
    }
    if any_astray(alloc, p)? {
        return Ok(Some(16));
    }
    if any_found(alloc, p, Pass::Shared)? {
        return Ok(Some(17));
    }
    Ok(None)
}

fn broken_21_to_23(alloc: Global, p: &Parts) -> Result<Option<u8>, NoMemory>
    ensures { IfOk result (λ rule. rule ≡ first_broken rules_21_to_23 p.now) }
{
    if any_found(alloc, p, Pass::Unreadable)? {
        return Ok(Some(21));
    }
    if any_found(alloc, p, Pass::Entry(RelocRule::Known))? {
        return Ok(Some(22));
    }
    if any_found(alloc, p, Pass::Entry(RelocRule::Placed))? {
        return Ok(Some(23));
    }
    Ok(None)
}

fn broken_last(alloc: Global, p: &Parts) -> Result<Option<u8>, NoMemory>
    ensures { IfOk result (λ rule. rule ≡ first_broken made_last p.now) }
{
    if any_section(p, SectionRule::Uneven) {
        return Ok(Some(25));
    }
    if any_section(p, SectionRule::Crowded) {
        return Ok(Some(26));
    }
    if any_found(alloc, p, Pass::Entry(RelocRule::Natural))? {
        return Ok(Some(29));
    }
    Ok(None)
}

/// The least rule that parts break.
pub(crate) fn broken_rule(alloc: Global, p: &Parts) -> Result<Option<u8>, NoMemory>
    ensures { IfOk result (λ rule. rule ≡ first_broken made_rules p.now) }
{
    let front = broken_front(alloc, p)?;
    if is_there(front) {
        return Ok(front);
    }
    let first = broken_9_to_12(alloc, p)?;
    if is_there(first) {
        return Ok(first);
    }
    let second = broken_13_to_17(alloc, p)?;
    if is_there(second) {
        return Ok(second);
    }
    let third = broken_21_to_23(alloc, p)?;
    if is_there(third) {
        return Ok(third);
    }
    let last = broken_last(alloc, p)?;
    Ok(last)
}
