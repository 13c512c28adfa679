// Reading relocation entries, of 16 bytes in the ECOFF object format for Alpha.
ghost use Rattle.std.specs.Prelude.{◌≡◌, ◌≤◌, ◌<◌, ◌+◌, ◌*◌, length, IfOk, false};
ghost use Rattle.om_fields.specs.Places.{each};
ghost use Rattle.om_fields.specs.Answers.{Reads};
ghost use Rattle.om_reloc.specs.Relocs.{kind_of, reloc_at, entry_at, relocs_of, table_is_past as past_end, is_over as over, table_rules, early_table_rules};

use crate::reloc::{Reloc, RelocKind};
use om_fields::{FieldErr, SecHead, is_past, u32_at, u64_at};
use om_io::{Listed, NoMemory};
use std::alloc::Global;

// The type of a number.
fn kind(code: u8) -> RelocKind
    ensures { result ≡ kind_of code }
{
    match code {
        0 => RelocKind::Ignore,
        1 => RelocKind::RefLong,
        2 => RelocKind::RefQuad,
        3 => RelocKind::GpRel32,
        4 => RelocKind::Literal,
        5 => RelocKind::LitUse,
        6 => RelocKind::GpDisp,
        7 => RelocKind::BrAddr,
        8 => RelocKind::Hint,
        other => RelocKind::Other(other),
    }
}

// The entry at a byte offset: the address at 0, the index at 8, the type at 12, and the external flag in bit 0 at 13.
fn reloc(bytes: &[u8], at: usize) -> Reloc
    requires { at + 16 ≤ length bytes.now }
    ensures { result ≡ reloc_at bytes.now at }
{
    Reloc {
        place: u64_at(bytes, at),
        index: u32_at(bytes, at + 8),
        kind: kind(bytes[at + 12]),
        external: bytes[at + 13] % 2 == 1,
    }
}

/// Whether a section's relocation table, of 16 bytes an entry, runs past the end of a file. An empty one never does.
pub fn table_is_past(bytes: &[u8], head: &SecHead) -> bool
    ensures { result ≡ past_end bytes.now head.now }
{
    is_past(bytes.len(), head.relocs_at, 16 * u64::from(head.relocs))
}

/// Whether a section's relocation count is 65535, which stands for a greater one that is told elsewhere.
pub fn is_over(head: &SecHead) -> bool
    ensures { result ≡ over head.now }
{
    head.relocs == 65535
}

// The relocation entries of a section whose table lies in the file, in their order; also 65535 of them.
#[tactic(auto, using(crate::proofs::Entries::relocs_snoc))]
fn relocs(alloc: Global, bytes: &[u8], head: &SecHead) -> Result<Listed<Reloc>, NoMemory>
    requires { past_end bytes.now head.now ≡ false }
    ensures { IfOk result (λ relocs. relocs ≡ relocs_of bytes.now head.now) }
{
    let mut relocs = Vec::new(alloc);
    for i in 0..usize::from(head.relocs) {
        relocs.push(reloc(bytes, head.relocs_at as usize + 16 * i))?;
    }
    Ok(Listed::from_vec(relocs))
}

/// The relocation entries of a section, in their order, or the least broken rule of 5 and 26; both have the place
/// `head_at`, the byte offset of the section's header.
///
/// Rule 5: the table runs past the end of the file; an empty one never does. Rule 26: the count is 65535, which stands for
/// more. The section counts as a loaded one, whatever its name. `NoMemory` says nothing of the file. The fields are those of
/// relocation entries of the ECOFF object format for Alpha (reloc.h).
#[tactic(auto, using(crate::proofs::Entries::past_is, crate::proofs::Entries::over_is, crate::proofs::Entries::unbroken))]
pub fn read_relocs(
    alloc: Global,
    bytes: &[u8],
    head: &SecHead,
    head_at: u64,
) -> Result<Listed<Reloc>, FieldErr>
    ensures { Reads (table_rules head.now head_at) bytes.now (relocs_of bytes.now head.now) result }
{
    if table_is_past(bytes, head) {
        return Err(FieldErr::Rule {
            rule: 5,
            at: head_at,
        });
    }
    if is_over(head) {
        return Err(FieldErr::Rule {
            rule: 26,
            at: head_at,
        });
    }
    Ok(relocs(alloc, bytes, head)?)
}

/// What `read_relocs` gives but for rule 26, which is not tested: the relocation entries of a section in their order, also
/// 65535 of them, or rule 5 with the place `head_at`. It is for readers of whole files, which name other broken rules
/// before rule 26.
#[tactic(auto, using(crate::proofs::Entries::early_past_is, crate::proofs::Entries::early_unbroken))]
pub fn read_relocs_early(
    alloc: Global,
    bytes: &[u8],
    head: &SecHead,
    head_at: u64,
) -> Result<Listed<Reloc>, FieldErr>
    ensures { Reads (early_table_rules head.now head_at) bytes.now (relocs_of bytes.now head.now) result }
{
    if !table_is_past(bytes, head) {
        return Ok(relocs(alloc, bytes, head)?);
    }
    Err(FieldErr::Rule {
        rule: 5,
        at: head_at,
    })
}
