// Reading the headers of an object file.
ghost use Rattle.std.specs.Prelude.{◌≡◌, ◌≤◌, ◌<◌, ◌+◌, ◌*◌, length, IfOk};
ghost use Rattle.om_fields.specs.Places.{number_at, bytes_at, each};
ghost use Rattle.om_fields.specs.HeaderFields.{section_count as count_of, head_of, headers_of, early_rules, field_rules};
ghost use Rattle.om_fields.specs.Answers.{Reads};

use crate::head::{FieldErr, Headers, SecHead};
use crate::header_rules::{early_fault, field_fault, section_count};
use crate::reading::{u16_at, u64_at};
use om_io::{Listed, Name, NoMemory};
use std::alloc::Global;

// The `k`-th section header.
fn head(alloc: Global, bytes: &[u8], k: usize) -> Result<SecHead, NoMemory>
    requires small { k < 65536 }
    requires inside { 168 + 64 * k ≤ length bytes.now }
    ensures { IfOk result (λ head. head ≡ head_of bytes.now k) }
{
    let at = 104 + 64 * k;
    let name = bytes[at..][..8].to_vec(alloc)?;
    Ok(SecHead {
        name: Name::from_vec(name),
        addr: u64_at(bytes, at + 16),
        size: u64_at(bytes, at + 24),
        bytes_at: u64_at(bytes, at + 32),
        relocs_at: u64_at(bytes, at + 40),
        relocs: u16_at(bytes, at + 56),
    })
}

// All section headers, in their order.
#[tactic(auto, using(crate::proofs::Heads::heads_snoc))]
fn heads(alloc: Global, bytes: &[u8]) -> Result<Listed<SecHead>, NoMemory>
    requires long { 24 ≤ length bytes.now }
    requires all { 104 + 64 * count_of bytes.now ≤ length bytes.now }
    ensures { IfOk result (λ heads. heads ≡ each (head_of bytes.now) (count_of bytes.now)) }
{
    let mut heads = Vec::new(alloc);
    for k in 0..section_count(bytes) {
        heads.push(head(alloc, bytes, k)?)?;
    }
    Ok(Listed::from_vec(heads))
}

/// The headers of a file that is long enough for them, whatever else is wrong with it.
pub fn file_headers(alloc: Global, bytes: &[u8]) -> Result<Headers, NoMemory>
    requires long { 104 ≤ length bytes.now }
    requires all { 104 + 64 * count_of bytes.now ≤ length bytes.now }
    ensures { IfOk result (λ headers. headers ≡ headers_of bytes.now) }
{
    let sections = heads(alloc, bytes)?;
    Ok(Headers {
        gp: u64_at(bytes, 96),
        sym_at: u64_at(bytes, 8),
        sections,
    })
}

/// The headers of an object file, or the least broken rule of 1 to 4, 6 and 24 with its least place, a byte offset in the
/// file. `NoMemory` says nothing of the file.
///
/// Rule 1: shorter than 24 bytes, or another magic number than 0183 (place 0). Rule 2: the optional header's size is not
/// 80 (place 20). Rule 3: too short for its section headers (place 24). Rule 4: a loaded section with bytes runs past the
/// end. Rule 6: a loaded section has the number of an earlier one, ends past 2^63 or shares an address with an earlier
/// one. Rule 24: a section that is neither loaded nor passed over has a size above 0. Rules 4, 6 and 24 have the place of
/// the section's header. An empty section never runs past the end. The fields are those of the ECOFF object format for
/// Alpha (filehdr, aouthdr, scnhdr).
#[tactic(auto, using(crate::proofs::Faults::field_fault_is, crate::proofs::Faults::fields_unbroken))]
pub fn read_headers(alloc: Global, bytes: &[u8]) -> Result<Headers, FieldErr>
    ensures { Reads field_rules bytes.now (headers_of bytes.now) result }
{
    if let Some((rule, at)) = field_fault(alloc, bytes)? {
        return Err(FieldErr::Rule { rule, at });
    }
    Ok(file_headers(alloc, bytes)?)
}

/// What `read_headers` gives but for rule 24, which is not tested: the headers, or the least broken rule of 1 to 4 and 6
/// with its least place. It is for readers of whole files, which name broken rules of symbols and of relocations before
/// rule 24.
#[tactic(auto, using(crate::proofs::Faults::early_fault_is, crate::proofs::Faults::early_unbroken))]
pub fn read_headers_early(alloc: Global, bytes: &[u8]) -> Result<Headers, FieldErr>
    ensures { Reads early_rules bytes.now (headers_of bytes.now) result }
{
    if let Some((rule, at)) = early_fault(alloc, bytes)? {
        return Err(FieldErr::Rule { rule, at });
    }
    Ok(file_headers(alloc, bytes)?)
}
