// The headers of a file, by the rules 1 to 6.
ghost use Rattle.std.specs.Prelude.{◌≡◌, ◌≤◌, ◌+◌, ◌*◌, length, IfOk, Some, None};
ghost use Rattle.om_fields.specs.Places.{each};
ghost use Rattle.om_fields.specs.Rules.{first_fault};
ghost use Rattle.om_fields.specs.HeaderFields.{section_count, head_of, headers_of, early_rules};
ghost use Rattle.om_object.specs.File.{head_rules, ReadsHeads, HasSections};

use crate::errors::ObjErr;
use crate::rules::TableRule;
use crate::tables::first_table;
use om_fields::{FieldErr, Headers, file_headers, read_headers_early};
use om_io::NoMemory;
use std::alloc::Global;

// The first fault by the rules 1 to 6 of a file that breaks `rule` at `at`, as the headers alone tell: they leave out rule 5,
// which is lesser than rule 6.
fn lesser_fault(alloc: Global, bytes: &[u8], rule: u8, at: u64) -> Result<(u8, u64), NoMemory>
    requires { first_fault early_rules bytes.now ≡ Some (rule, at) }
    ensures { IfOk result (λ fault. first_fault head_rules bytes.now ≡ Some fault) }
{
    if rule < 6 {
        return Ok((rule, at));
    }
    let headers = file_headers(alloc, bytes)?;
    if let Some(place) = first_table(TableRule::Past, bytes, headers.sections.as_slice()) {
        return Ok((5, place));
    }
    Ok((rule, at))
}

// The headers of a file that keeps the rules 1 to 4 and 6, or rule 5.
fn with_tables(bytes: &[u8], headers: Headers) -> Result<Headers, ObjErr>
    requires headers { headers ≡ headers_of bytes.now }
    requires kept { first_fault early_rules bytes.now ≡ None }
    ensures reads { ReadsHeads bytes.now result }
    ensures long { IfOk result (λ headers. 104 + 64 * section_count bytes.now ≤ length bytes.now) }
    ensures fits { IfOk result (λ headers. HasSections bytes.now) }
{
    if let Some(at) = first_table(TableRule::Past, bytes, headers.sections.as_slice()) {
        return Err(ObjErr::Rule { rule: 5, at });
    }
    Ok(headers)
}

/// The headers of a file, or the first of the rules 1 to 6 that it breaks, with its least place.
#[tactic(auto, using(crate::proofs::HeadsAt::early_kept))]
pub fn sound_headers(alloc: Global, bytes: &[u8]) -> Result<Headers, ObjErr>
    ensures reads { ReadsHeads bytes.now result }
    ensures long { IfOk result (λ headers. 104 + 64 * section_count bytes.now ≤ length bytes.now) }
    ensures fits { IfOk result (λ headers. HasSections bytes.now) }
{
    match read_headers_early(alloc, bytes) {
        Ok(headers) => with_tables(bytes, headers),
        Err(FieldErr::Rule { rule, at }) => {
            let (rule, at) = lesser_fault(alloc, bytes, rule, at)?;
            Err(ObjErr::Rule { rule, at })
        }
        Err(FieldErr::NoMemory) => Err(ObjErr::NoMemory),
    }
}
