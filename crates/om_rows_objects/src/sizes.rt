// How many items the lists of an object have, which its writer asks for.
ghost use Rattle.std.specs.Prelude.{◌≡◌, ◌<◌, ◌^◌, IfSome, IsTrue, sum_by};
ghost use Rattle.om_objwrite.specs.Lengths.{section_length, name_length, total_length};

use om_object::{Parts, Section};
use om_symtab::ExtSym;

fn section_items(sections: &[Section]) -> Option<usize>
    ensures { IfSome result (λ n. n ≡ sum_by section_length sections.now) }
{
    let mut total = 0usize;
    for i in 0..sections.len() {
        let s = &sections[i];
        total = total
            .checked_add(s.bytes.as_slice().len())?
            .checked_add(s.relocs.as_slice().len())?;
    }
    Some(total)
}

fn name_items(symbols: &[ExtSym]) -> Option<usize>
    ensures { IfSome result (λ n. n ≡ sum_by name_length symbols.now) }
{
    let mut total = 0usize;
    for i in 0..symbols.len() {
        total = total.checked_add(symbols[i].name.as_slice().len())?;
    }
    Some(total)
}

fn items(parts: &Parts) -> Option<usize>
    ensures { IfSome result (λ n. n ≡ total_length parts.now) }
{
    let sections = parts.sections.as_slice();
    let symbols = parts.symbols.as_slice();
    sections
        .len()
        .checked_add(section_items(sections)?)?
        .checked_add(symbols.len())?
        .checked_add(name_items(symbols)?)
}

/// Whether the lists of an object have fewer than 2^28 items in all.
pub fn is_small(parts: &Parts) -> bool
    ensures { IsTrue result → total_length parts.now < 2 ^ 28 }
{
    match items(parts) {
        Some(n) => n < 268_435_456,
        None => false,
    }
}
