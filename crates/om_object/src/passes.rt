// Passes over the parts of an object: the least place where a rule is broken.
ghost use Rattle.std.specs.Prelude.{◌≡◌, ◌<◌, ◌≤◌, ◌+◌, ◌*◌, ◌^◌, ℕ, length, Option, Some, None, IfOk, option_map, is_some};
ghost use Rattle.om_fields.specs.Places.{least, lesser_of, picked, place_if as places_if};
ghost use Rattle.om_object.specs.declared.rules.Pass.TheVariants.{Entry};
ghost use Rattle.om_object.specs.Rules.{section_at, reloc_at, breaks_at, section_breaks, symbol_breaks as breaks_symbol, sections_where, symbols_where, symbol_at, is_found};
ghost use Rattle.om_object.specs.Spots.{origin_at, places_of};
ghost use Rattle.om_object.specs.Passes.{IsPlaced, indices_of, item_place as place_of_item, spots_of};

use crate::entry::breaks;
use crate::flags::is_there;
use crate::kinds::is_ignore;
use crate::lituse::first_unled;
use crate::origin::{Origin, Origins};
use crate::parts::{Parts, Section};
use crate::rules::{Pass, RelocRule, SectionRule, SymbolRule};
use crate::sections::breaks_section;
use crate::shared::first_shared;
use crate::symbols::breaks_as_symbol;
use crate::text::{first_astray, first_unreadable};
use om_io::NoMemory;
use std::alloc::Global;

/// The lesser of two places that may be missing.
pub fn lesser(a: Option<u64>, b: Option<u64>) -> Option<u64>
    ensures { result ≡ lesser_of a b }
{
    match a {
        None => b,
        Some(x) => match b {
            None => Some(x),
            Some(y) => Some(x.min(y)),
        },
    }
}

// Whether a section's i-th relocation breaks a rule by itself.
fn breaks_here(p: &Parts, rule: RelocRule, s: &Section, i: usize) -> bool
    requires { i < length s.now.relocs }
    ensures { result ≡ breaks_at p.now rule s.now i }
{
    let r = s.relocs.as_slice()[i];
    if is_ignore(r.kind) {
        return false;
    }
    breaks(p, rule, s, &r)
}

// The first relocation of a section that breaks a rule by itself, by its index.
fn first_entry(p: &Parts, rule: RelocRule, s: &Section) -> Option<usize>
    ensures { result ≡ least (indices_of p.now (Entry rule) s.now) }
{
    for i in 0..s.relocs.as_slice().len() {
        if breaks_here(p, rule, s, i) {
            return Some(i);
        }
    }
    None
}

// The first item of a section that a pass finds, by its index.
fn first_in(alloc: Global, p: &Parts, pass: Pass, s: &Section) -> Result<Option<usize>, NoMemory>
    ensures { IfOk result (λ i. i ≡ least (indices_of p.now pass s.now)) }
{
    match pass {
        Pass::Entry(rule) => Ok(first_entry(p, rule, s)),
        Pass::Unled => Ok(first_unled(s)),
        Pass::Shared => first_shared(alloc, s),
        Pass::Unreadable => Ok(first_unreadable(p, s)),
        Pass::Astray => first_astray(alloc, p, s),
    }
}

// Where an item of a pass stands.
fn item_place(pass: Pass, origin: Origin, i: usize) -> u64
    requires { place_of_item pass origin i < 2 ^ 64 }
    ensures { result ≡ place_of_item pass origin i }
{
    match pass {
        Pass::Entry(_) => origin.relocs + 16 * i as u64,
        Pass::Unled => origin.relocs + 16 * i as u64,
        Pass::Shared => origin.relocs + 16 * i as u64,
        Pass::Unreadable => origin.bytes + 4 * i as u64,
        Pass::Astray => origin.bytes + 4 * i as u64,
    }
}

// Where an item of a pass stands, if one was found.
fn found_place(pass: Pass, origin: Origin, found: Option<usize>) -> Option<u64>
    requires { (i : ℕ) → found ≡ Some i → place_of_item pass origin i < 2 ^ 64 }
    ensures { result ≡ option_map (place_of_item pass origin) found }
{
    match found {
        None => None,
        Some(i) => Some(item_place(pass, origin, i)),
    }
}

/// The least place that a pass finds.
pub fn least_found(
    alloc: Global,
    p: &Parts,
    o: &Origins,
    pass: Pass,
) -> Result<Option<u64>, NoMemory>
    requires { IsPlaced p.now o.now }
    ensures { IfOk result (λ at. at ≡ least (places_of o.now (spots_of p.now pass))) }
{
    let sections = p.sections.as_slice();
    let origins = o.sections.as_slice();
    let mut best = None;
    for a in 0..sections.len() {
        let found = first_in(alloc, p, pass, &sections[a])?;
        best = lesser(best, found_place(pass, origins[a], found));
    }
    Ok(best)
}

/// Whether a pass finds anything.
pub fn any_found(alloc: Global, p: &Parts, pass: Pass) -> Result<bool, NoMemory>
    ensures { IfOk result (λ b. b ≡ is_found (spots_of p.now pass)) }
{
    let sections = p.sections.as_slice();
    for a in 0..sections.len() {
        let found = first_in(alloc, p, pass, &sections[a])?;
        if is_there(found) {
            return Ok(true);
        }
    }
    Ok(false)
}

// A place, where it is one.
fn place_if(broken: bool, at: u64) -> Option<u64>
    ensures { result ≡ least (places_if broken at) }
{
    if broken { Some(at) } else { None }
}

/// The least place of the sections that break a rule by themselves.
pub fn least_section(p: &Parts, o: &Origins, rule: SectionRule) -> Option<u64>
    requires { IsPlaced p.now o.now }
    ensures { result ≡ least (places_of o.now (sections_where p.now (section_breaks rule))) }
{
    let sections = p.sections.as_slice();
    let origins = o.sections.as_slice();
    let mut best = None;
    for a in 0..sections.len() {
        best = lesser(
            best,
            place_if(breaks_section(rule, &sections[a]), origins[a].head),
        );
    }
    best
}

/// The first section that breaks a rule by itself, by its index.
pub fn first_section(p: &Parts, rule: SectionRule) -> Option<usize>
    ensures { result ≡ least (picked (λ a. section_breaks rule (section_at p.now a)) (λ a. a) (length p.now.sections)) }
{
    let sections = p.sections.as_slice();
    for a in 0..sections.len() {
        if breaks_section(rule, &sections[a]) {
            return Some(a);
        }
    }
    None
}

/// The first symbol that breaks a rule by itself, by its index.
pub fn first_symbol(p: &Parts, rule: SymbolRule) -> Option<usize>
    ensures { result ≡ least (picked (λ j. breaks_symbol p.now rule (symbol_at p.now j)) (λ j. j) (length p.now.symbols)) }
{
    let symbols = p.symbols.as_slice();
    for j in 0..symbols.len() {
        if breaks_as_symbol(p, rule, &symbols[j]) {
            return Some(j);
        }
    }
    None
}

/// The place of the first symbol that breaks a rule by itself.
pub fn least_symbol(p: &Parts, o: &Origins, rule: SymbolRule) -> Option<u64>
    requires { IsPlaced p.now o.now }
    ensures { result ≡ least (places_of o.now (symbols_where p.now (breaks_symbol p.now rule))) }
{
    match first_symbol(p, rule) {
        None => None,
        Some(j) => Some(o.symbols + 24 * j as u64),
    }
}
