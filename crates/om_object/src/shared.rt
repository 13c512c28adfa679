// Bytes of two fields.
ghost use Rattle.std.specs.Prelude.{◌≡◌, ◌∷◌, ◌==◌, ◌||◌, ◌++◌, ◌+◌, ◌*◌, ◌^◌, ◌<◌, length, ℕ, List, IfOk};
ghost use Rattle.om_fields.specs.Places.{any_of, least, picked};
ghost use Rattle.om_object.specs.Claims.{IsSeen, behind};
ghost use Rattle.om_object.specs.Rules.{repeats, four_bytes, field_bytes, is_shared};

use crate::claimed::Claimed;
use crate::flags::either;
use crate::parts::Section;
use crate::words::{lda_offset, offset};
use om_io::NoMemory;
use om_reloc::{Reloc, RelocKind};
use std::alloc::Global;

// Claims the four bytes at an offset. Whether one was so before.
#[tactic(auto, unfolding(crate::specs::Rules::four_bytes))]
fn claim_four(claimed: &mut Claimed, off: u64) -> Result<bool, NoMemory>
    ensures had { (seen : List ℕ) → IsSeen claimed.old seen → IfOk result (λ had. had ≡ repeats seen (four_bytes off)) }
    ensures now { (seen : List ℕ) → IsSeen claimed.old seen → IfOk result (λ had. IsSeen claimed.new (behind seen (four_bytes off))) }
{
    let a = claimed.claim(off.wrapping_add(0))?;
    let b = claimed.claim(off.wrapping_add(1))?;
    let c = claimed.claim(off.wrapping_add(2))?;
    let d = claimed.claim(off.wrapping_add(3))?;
    Ok(either(a, either(b, either(c, either(d, false)))))
}

// Claims the four bytes at each of two offsets. Whether one was so before.
#[tactic(auto, using(crate::proofs::Bytes::repeats_append, crate::proofs::Bytes::behind_append))]
fn claim_eight(claimed: &mut Claimed, first: u64, second: u64) -> Result<bool, NoMemory>
    ensures had { (seen : List ℕ) → IsSeen claimed.old seen → IfOk result (λ had. had ≡ repeats seen (four_bytes first ++ four_bytes second)) }
    ensures now { (seen : List ℕ) → IsSeen claimed.old seen → IfOk result (λ had. IsSeen claimed.new (behind seen (four_bytes first ++ four_bytes second))) }
{
    let a = claim_four(claimed, first)?;
    let b = claim_four(claimed, second)?;
    Ok(either(a, b))
}

// Claims the bytes of a relocation's field. Whether one was so before, or stands twice in the field.
fn claim_field(claimed: &mut Claimed, s: &Section, r: &Reloc) -> Result<bool, NoMemory>
    ensures had { (seen : List ℕ) → IsSeen claimed.old seen → IfOk result (λ had. had ≡ repeats seen (field_bytes s.now r.now)) }
    ensures now { (seen : List ℕ) → IsSeen claimed.old seen → IfOk result (λ had. IsSeen claimed.new (behind seen (field_bytes s.now r.now))) }
{
    let off = offset(s, r);
    match r.kind {
        RelocKind::RefQuad => claim_eight(claimed, off, off.wrapping_add(4)),
        RelocKind::GpRel32 => claim_four(claimed, off),
        RelocKind::Literal => claim_four(claimed, off),
        RelocKind::BrAddr => claim_four(claimed, off),
        RelocKind::GpDisp => claim_eight(claimed, off, lda_offset(s, r)),
        _ => Ok(false),
    }
}

/// The first relocation of a section whose field shares a byte with an earlier one.
pub fn first_shared(alloc: Global, s: &Section) -> Result<Option<usize>, NoMemory>
    ensures { IfOk result (λ i. i ≡ least (picked (is_shared s.now) (λ j. j) (length s.now.relocs))) }
{
    let mut claimed = Claimed::new(alloc, s.bytes.as_slice().len())?;
    let relocs = s.relocs.as_slice();
    for i in 0..relocs.len() {
        if claim_field(&mut claimed, s, &relocs[i])? {
            return Ok(Some(i));
        }
    }
    Ok(None)
}
