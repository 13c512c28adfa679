// Uses of LITERALs.
ghost use Rattle.std.specs.Prelude.{◌≡◌, ◌<◌, ◌+◌, ◌*◌, ◌^◌, ◌&&◌, ◌||◌, nat_le, length};
ghost use Rattle.om_fields.specs.Places.{least, picked};
ghost use Rattle.om_object.specs.Rules.{is_unled, is_led, is_stray as strays};

use crate::flags::either;
use crate::kinds::{is_literal, is_lituse};
use crate::parts::Section;
use om_reloc::Reloc;

// Whether the number of a use is a known one.
fn is_use(index: u32) -> bool
    ensures { result ≡ (nat_le 1 index && nat_le index 3) }
{
    1 <= index && index <= 3
}

// Whether a relocation is a LITUSE without an earlier LITERAL, or of an unknown use.
fn is_stray(r: &Reloc, led: bool) -> bool
    ensures { result ≡ strays led r.now }
{
    if !is_lituse(r.kind) {
        return false;
    }
    if !led {
        return true;
    }
    !is_use(r.index)
}

/// The first LITUSE of a section without an earlier LITERAL, or of an unknown use.
pub fn first_unled(s: &Section) -> Option<usize>
    ensures { result ≡ least (picked (is_unled s.now) (λ i. i) (length s.now.relocs)) }
{
    let relocs = s.relocs.as_slice();
    let mut led = false;
    for i in 0..relocs.len() {
        let r = relocs[i];
        if is_stray(&r, led) {
            return Some(i);
        }
        led = either(led, is_literal(r.kind));
    }
    None
}
