// Bytes that fields claim.
ghost use Rattle.std.specs.Prelude.{◌≡◌, ◌∷◌, [], ◌==◌, ℕ, List, IfOk};
ghost use Rattle.om_fields.specs.Places.{any_of};

use om_io::NoMemory;
use std::alloc::Global;
use std::collections::BTreeSet;

/// Which bytes were claimed: a mark for each byte that a section has, and a set of the offsets past them, which the
/// second word of a pair may have.
#[derive(Drop)]
pub struct Claimed {
    inside: Vec<bool>,
    outside: BTreeSet<u64>,
}

impl Claimed {
    ghost use Rattle.om_object.specs.Claims.{IsSeen};

    /// No byte is claimed, of a section with so many.
    pub fn new(alloc: Global, length: usize) -> Result<Claimed, NoMemory>
        ensures { IfOk result (λ claimed. IsSeen claimed []) }
    {
        let inside = vec![in alloc; false; length]?;
        Ok(Claimed {
            inside,
            outside: BTreeSet::new(alloc),
        })
    }

    /// Claims a byte. Whether it was claimed before.
    pub fn claim(&mut self, off: u64) -> Result<bool, NoMemory>
        ensures had { (seen : List ℕ) → IsSeen self.old seen → IfOk result (λ had. had ≡ any_of (λ b. b == off) seen) }
        ensures now { (seen : List ℕ) → IsSeen self.old seen → IfOk result (λ had. IsSeen self.new (off ∷ seen)) }
    {
        if off < self.inside.len() as u64 {
            let had = self.inside[off as usize];
            self.inside[off as usize] = true;
            return Ok(had);
        }
        let added = self.outside.insert(off)?;
        Ok(!added)
    }
}
