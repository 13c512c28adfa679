// Sections of an object, their words, and the pairs and slots that relocations name.
ghost use Rattle.std.specs.Prelude.{◌≡◌, ◌<◌, ◌≤◌, ◌+ℤ◌, ◌*ℤ◌, pos, Some, option_copied};
ghost use Rattle.om_object.specs.Words.{section_of, offset_of, is_word as holds_word, instr_in, ldah_disp as disp_of_ldah, lda_disp as disp_of_lda, ldq_disp as disp_of_ldq, branch_disp as disp_of_branch, lda_offset as offset_of_lda, base_by as base_of, base_offset as offset_of_base, slot_in, slot_of, own_target as target_of};

use crate::parts::{Parts, Section};
use om_fields::u32_at;
use om_isa::{Instr, MemOp, decode};
use om_reloc::Reloc;

/// The section of a number.
pub fn section(p: &Parts, number: u32) -> Option<&Section>
    ensures { option_copied result ≡ section_of p.now number }
{
    for s in p.sections.as_slice() {
        if u32::from(s.number) == number {
            return Some(s);
        }
    }
    None
}

/// The offset of a relocation's field in its section, modulo 2^64.
pub fn offset(s: &Section, r: &Reloc) -> u64
    ensures { result ≡ offset_of s.now r.now }
{
    r.place.wrapping_sub(s.addr)
}

/// Whether an offset is that of a word of the text.
pub fn is_word(p: &Parts, off: u64) -> bool
    ensures { result ≡ holds_word p.now off }
{
    match section(p, 1) {
        None => false,
        Some(t) => off % 4 == 0 && off < t.size,
    }
}

/// The instruction at an offset of a section.
pub fn instr(s: &Section, off: u64) -> Option<Instr>
    ensures { result ≡ instr_in s.now off }
{
    let bytes = s.bytes.as_slice();
    if u128::from(off) + 4 <= bytes.len() as u128 {
        return decode(u32_at(bytes, off as usize));
    }
    None
}

pub fn ldah_disp(i: Option<Instr>) -> Option<i16>
    ensures { result ≡ disp_of_ldah i }
{
    match i {
        Some(
            Instr::Mem {
                op: MemOp::Ldah,
                disp,
                ..
            },
        ) => Some(disp),
        _ => None,
    }
}

pub fn lda_disp(i: Option<Instr>) -> Option<i16>
    ensures { result ≡ disp_of_lda i }
{
    match i {
        Some(
            Instr::Mem {
                op: MemOp::Lda,
                disp,
                ..
            },
        ) => Some(disp),
        _ => None,
    }
}

pub fn ldq_disp(i: Option<Instr>) -> Option<i16>
    ensures { result ≡ disp_of_ldq i }
{
    match i {
        Some(
            Instr::Mem {
                op: MemOp::Ldq,
                disp,
                ..
            },
        ) => Some(disp),
        _ => None,
    }
}

/// The offset of the LDA that a GPDISP's distance names.
pub fn lda_offset(s: &Section, r: &Reloc) -> u64
    ensures { result ≡ offset_of_lda s.now r.now }
{
    offset(s, r).wrapping_add(i64::from(r.index.cast_signed()).cast_unsigned())
}

fn pair_total(hi: i16, lo: i16) -> i64
    ensures { result ≡ (pos 65536 *ℤ hi) +ℤ lo }
{
    65536 * i64::from(hi) + i64::from(lo)
}

fn base_by(p: &Parts, s: &Section, hi: i16, lo: i16) -> u64
    ensures { result ≡ base_of p.now s.now hi lo }
{
    p.gp.wrapping_sub(pair_total(hi, lo).cast_unsigned())
        .wrapping_sub(s.addr)
}

/// The offset in the text of the base place of a GPDISP.
pub fn base_offset(p: &Parts, s: &Section, r: &Reloc) -> Option<u64>
    ensures { result ≡ offset_of_base p.now s.now r.now }
{
    let hi = ldah_disp(instr(s, offset(s, r)))?;
    let lo = lda_disp(instr(s, lda_offset(s, r)))?;
    Some(base_by(p, s, hi, lo))
}

fn slot(p: &Parts, disp: i16) -> Option<u64>
    ensures { result ≡ slot_in p.now (section_of p.now 13) disp }
{
    let lita = section(p, 13)?;
    let off = p
        .gp
        .wrapping_add(i64::from(disp).cast_unsigned())
        .wrapping_sub(lita.addr);
    if off % 8 != 0 {
        return None;
    }
    if u128::from(off) + 8 <= u128::from(lita.size) {
        return Some(off);
    }
    None
}

/// The offset of the slot that a LITERAL's LDQ names.
pub fn slot_at(p: &Parts, s: &Section, r: &Reloc) -> Option<u64>
    ensures { result ≡ slot_of p.now s.now r.now }
{
    let disp = ldq_disp(instr(s, offset(s, r)))?;
    slot(p, disp)
}

fn disp_of(i: &Instr) -> Option<i32>
    ensures { result ≡ disp_of_branch (Some i.now) }
{
    match i {
        Instr::Branch { disp, .. } => Some(disp.num()),
        _ => None,
    }
}

/// The displacement in words of a branch.
pub fn branch_disp(i: Option<Instr>) -> Option<i32>
    ensures { result ≡ disp_of_branch i }
{
    match i {
        Some(i) => disp_of(&i),
        None => None,
    }
}

/// The offset to which a branch at an offset goes by itself, modulo 2^64.
pub fn own_target(off: u64, disp: i32) -> u64
    ensures { result ≡ target_of off disp }
{
    off.wrapping_add(4)
        .wrapping_add((4 * i64::from(disp)).cast_unsigned())
}
