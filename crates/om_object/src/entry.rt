// The tests of one relocation.
ghost use Rattle.std.specs.Prelude.{◌≡◌, ◌<◌, ◌≤◌, ◌+◌, ◌^◌, length, option_copied, slice_index, slice_get};
ghost use Rattle.om_fields.specs.Places.{number_at};
ghost use Rattle.om_reloc.specs.declared.reloc.RelocKind.TheVariants.{RefQuad, GpRel32};
ghost use Rattle.om_object.specs.declared.rules.RelocRule.TheVariants.{Inside, Aligned, Named, Targeted, Paired, Slotted, Branching, Known, Placed, Natural};
ghost use Rattle.om_object.specs.Aims.{gp_value as value_of_gp};
ghost use Rattle.om_object.specs.Rules.{names_nothing, names_no_section, is_no_place as no_place, is_no_word as no_word, misses as misses_in, is_no_base as no_base, is_unpaired as unpaired, breaks as breaks_in};
ghost use Rattle.om_object.specs.Words.{section_of, offset_of, moved};

use crate::kinds::{
    field_width, has_target, is_braddr, is_gpdisp, is_literal, is_unknown, is_unnatural, may_stand,
};
use crate::parts::{Parts, Section};
use crate::rules::RelocRule;
use crate::words::{
    base_offset, branch_disp, instr, is_word, lda_offset, offset, section, slot_at,
};
use om_reloc::{Reloc, RelocKind};
use om_symtab::{ExtSym, is_naming};

fn is_nameless(y: Option<&ExtSym>) -> bool
    ensures { result ≡ names_nothing (option_copied y.entry) }
{
    match y {
        None => true,
        Some(y) => !is_naming(y.class),
    }
}

fn is_sectionless(p: &Parts, number: u32) -> bool
    ensures { result ≡ names_no_section p.now number }
{
    if number == 14 {
        return false;
    }
    if number == 13 {
        return true;
    }
    section(p, number).is_none()
}

fn is_unnamed(p: &Parts, s: &Section, r: &Reloc) -> bool
    ensures { result ≡ breaks_in p.now Named s.now r.now }
{
    if !has_target(r.kind) {
        return false;
    }
    if r.external {
        return is_nameless(p.symbols.as_slice().get(r.index as usize));
    }
    is_sectionless(p, r.index)
}

/// Whether an address is none of a section: outside it, or in the text and no word, or the section is missing.
pub fn is_no_place(p: &Parts, address: u64, s: Option<&Section>) -> bool
    ensures { result ≡ no_place p.now address (option_copied s.entry) }
{
    match s {
        None => true,
        Some(s) => {
            let off = address.wrapping_sub(s.addr);
            if s.size < off {
                return true;
            }
            if s.number != 1 {
                return false;
            }
            !is_word(p, off)
        }
    }
}

fn is_no_word(p: &Parts, address: u64, s: Option<&Section>) -> bool
    ensures { result ≡ no_word p.now address (option_copied s.entry) }
{
    match s {
        None => true,
        Some(s) => !is_word(p, address.wrapping_sub(s.addr)),
    }
}

// The byte `k` after an offset, or zero past the end.
fn byte_after(bytes: &[u8], at: u64, k: u64) -> u64
    requires { k < 8 }
    ensures gives { result ≡ slice_index bytes.now (at + k) }
    ensures small { result < 256 }
{
    let length = bytes.len() as u64;
    if at >= length {
        return 0;
    }
    if at + k >= length {
        return 0;
    }
    u64::from(bytes[(at + k) as usize])
}

// The 32 bits at `k` after an offset; bytes past the list are zero.
fn long_after(bytes: &[u8], at: u64, k: u64) -> u64
    requires { k < 5 }
    ensures gives { result ≡ number_at bytes.now (at + k) 4 }
    ensures small { result < 4294967296 }
{
    byte_after(bytes, at, k)
        + 256
            * (byte_after(bytes, at, k + 1)
                + 256 * (byte_after(bytes, at, k + 2) + 256 * byte_after(bytes, at, k + 3)))
}

/// The 32 bits at an offset; bytes past the list are zero.
pub fn long(bytes: &[u8], at: u64) -> u64
    ensures gives { result ≡ number_at bytes.now at 4 }
    ensures small { result < 4294967296 }
{
    long_after(bytes, at, 0)
}

/// The 64 bits at an offset; bytes past the list are zero.
pub fn quad(bytes: &[u8], at: u64) -> u64
    ensures { result ≡ number_at bytes.now at 8 }
{
    long_after(bytes, at, 0) + 4294967296 * long_after(bytes, at, 4)
}

fn is_baseless(p: &Parts, base: Option<u64>) -> bool
    ensures { result ≡ no_base p.now base }
{
    match base {
        None => true,
        Some(off) => !is_word(p, off),
    }
}

fn is_unpaired(p: &Parts, s: &Section, r: &Reloc) -> bool
    ensures { result ≡ unpaired p.now s.now r.now }
{
    if r.external {
        return true;
    }
    if r.index == 0 {
        return true;
    }
    if r.index % 4 != 0 {
        return true;
    }
    if lda_offset(s, r) >= s.size {
        return true;
    }
    is_baseless(p, base_offset(p, s, r))
}

fn misses_quad(p: &Parts, s: &Section, r: &Reloc) -> bool
    ensures { result ≡ misses_in p.now RefQuad s.now r.now }
{
    if r.index != 1 {
        return false;
    }
    is_no_word(p, quad(s.bytes.as_slice(), offset(s, r)), section(p, 1))
}

/// The address that a GPREL32 which is not external holds.
pub fn gp_address(p: &Parts, s: &Section, r: &Reloc) -> u64
    ensures { result ≡ moved p.now.gp (value_of_gp s.now r.now) }
{
    let bits = long(s.bytes.as_slice(), offset(s, r)) as u32;
    p.gp.wrapping_add(i64::from(bits.cast_signed()).cast_unsigned())
}

fn misses_gp(p: &Parts, s: &Section, r: &Reloc) -> bool
    ensures { result ≡ misses_in p.now GpRel32 s.now r.now }
{
    if r.index == 14 {
        return true;
    }
    is_no_place(p, gp_address(p, s, r), section(p, r.index))
}

fn is_mistargeted(p: &Parts, s: &Section, r: &Reloc) -> bool
    ensures { result ≡ breaks_in p.now Targeted s.now r.now }
{
    if r.external {
        return false;
    }
    match r.kind {
        RelocKind::RefQuad => misses_quad(p, s, r),
        RelocKind::GpRel32 => misses_gp(p, s, r),
        _ => false,
    }
}

fn is_outside(p: &Parts, s: &Section, r: &Reloc) -> bool
    ensures { result ≡ breaks_in p.now Inside s.now r.now }
{
    u128::from(s.size) < u128::from(offset(s, r)) + u128::from(field_width(r.kind))
}

fn is_unslotted(p: &Parts, s: &Section, r: &Reloc) -> bool
    ensures { result ≡ breaks_in p.now Slotted s.now r.now }
{
    if s.number != 1 {
        return false;
    }
    if !is_literal(r.kind) {
        return false;
    }
    if r.external {
        return true;
    }
    if r.index != 13 {
        return true;
    }
    slot_at(p, s, r).is_none()
}

fn is_no_pair(p: &Parts, s: &Section, r: &Reloc) -> bool
    ensures { result ≡ breaks_in p.now Paired s.now r.now }
{
    if s.number != 1 {
        return false;
    }
    if !is_gpdisp(r.kind) {
        return false;
    }
    is_unpaired(p, s, r)
}

fn is_no_branch(p: &Parts, s: &Section, r: &Reloc) -> bool
    ensures { result ≡ breaks_in p.now Branching s.now r.now }
{
    if s.number != 1 {
        return false;
    }
    if !is_braddr(r.kind) {
        return false;
    }
    branch_disp(instr(s, offset(s, r))).is_none()
}

fn is_crooked(p: &Parts, s: &Section, r: &Reloc) -> bool
    ensures { result ≡ breaks_in p.now Aligned s.now r.now }
{
    if s.number != 1 {
        return false;
    }
    offset(s, r) % 4 != 0
}

/// Whether a relocation breaks a rule by itself.
pub fn breaks(p: &Parts, rule: RelocRule, s: &Section, r: &Reloc) -> bool
    ensures { result ≡ breaks_in p.now rule s.now r.now }
{
    match rule {
        RelocRule::Inside => is_outside(p, s, r),
        RelocRule::Aligned => is_crooked(p, s, r),
        RelocRule::Named => is_unnamed(p, s, r),
        RelocRule::Targeted => is_mistargeted(p, s, r),
        RelocRule::Paired => is_no_pair(p, s, r),
        RelocRule::Slotted => is_unslotted(p, s, r),
        RelocRule::Branching => is_no_branch(p, s, r),
        RelocRule::Known => is_unknown(r.kind),
        RelocRule::Placed => !may_stand(r.kind, s.number),
        RelocRule::Natural => is_unnatural(r.kind, offset(s, r)),
    }
}
