// Words of four bytes that fields take.
ghost use Rattle.std.specs.Prelude.{◌≡◌, ◌||◌, ◌==◌, ◌&&◌, ◌+◌, ◌<◌, ◌↔◌, IsTrue, Some, false, true, not, ℕ, List, IfOk};
ghost use Rattle.std.specs.List.{slice_get};
ghost use Rattle.om_prog.specs.declared.item.Field.{Field as AnyField};
ghost use Rattle.om_prog.specs.Valid.{AreApart};
ghost use Rattle.om_prog.specs.Claims.{IsPlaced, HasClaims, is_claimed, is_taken, first_word};

use crate::item::Field;
use om_io::NoMemory;
use std::alloc::Global;
use std::collections::BTreeSet;

/// The words that were claimed, by their numbers in a region.
#[derive(Drop)]
pub(crate) struct Claims {
    words: BTreeSet<u64>,
}

impl Claims {
    ghost use Rattle.om_prog.specs.Claims.{is_claimed as was_claimed};

    /// None.
    fn new(alloc: Global) -> Claims
        ensures { (word : ℕ) → was_claimed result word ≡ false }
    {
        Claims {
            words: BTreeSet::new(alloc),
        }
    }

    /// Claims a word. Whether it was free.
    fn claim(&mut self, word: u64) -> Result<bool, NoMemory>
        ensures free { IfOk result (λ free. free ≡ not (was_claimed self.old word)) }
        ensures now { IfOk result (λ free. (w : ℕ) → was_claimed self.new w ≡ ((word == w) || was_claimed self.old w)) }
    {
        let free = self.words.insert(word)?;
        Ok(free)
    }
}

// Claims the words of a field. Whether all were free.
fn claim_field(claims: &mut Claims, f: &Field) -> Result<bool, NoMemory>
    requires { IsPlaced f.now }
    ensures free { IfOk result (λ free. free ≡ not (is_taken claims.old f.now)) }
    ensures now { IfOk result (λ free. (w : ℕ) → is_claimed claims.new w ≡ (((first_word f.now == w) || ((f.now.width == 8) && (first_word f.now + 1 == w))) || is_claimed claims.old w)) }
{
    let first = f.off / 4;
    let free = claims.claim(first)?;
    if f.width != 8 {
        return Ok(free);
    }
    let second = claims.claim(first + 1)?;
    Ok(free && second)
}

/// Whether no two of these fields share a byte.
pub(crate) fn are_apart(alloc: Global, fields: &[Field]) -> Result<bool, NoMemory>
    requires { (k : ℕ) (f : AnyField) → slice_get fields.now k ≡ Some f → IsPlaced f }
    ensures { IfOk result (λ apart. IsTrue apart ↔ AreApart fields.now) }
{
    let mut claims = Claims::new(alloc);
    for i in 0..fields.len() {
        if !claim_field(&mut claims, &fields[i])? {
            return Ok(false);
        }
    }
    Ok(true)
}
