// The tests of one symbol.
ghost use Rattle.std.specs.Prelude.{◌≡◌, ◌==◌};
ghost use Rattle.om_fields.specs.Places.{any_of};
ghost use Rattle.om_object.specs.Rules.{is_misplaced_in as misplaced_in, is_unwritable as unwritable, symbol_breaks};

use crate::entry::is_no_place;
use crate::parts::Parts;
use crate::rules::SymbolRule;
use crate::words::section;
use om_symtab::{ExtSym, section_of_class};

fn is_misplaced_in(p: &Parts, value: u64, number: Option<u8>) -> bool
    ensures { result ≡ misplaced_in p.now value number }
{
    match number {
        None => false,
        Some(n) => is_no_place(p, value, section(p, u32::from(n))),
    }
}

fn holds_zero(bytes: &[u8]) -> bool
    ensures { result ≡ any_of (λ c. c == 0) bytes.now }
{
    bytes.iter().any(|b| *b == 0)
}

fn is_unwritable(y: &ExtSym) -> bool
    ensures { result ≡ unwritable y.now }
{
    if holds_zero(y.name.as_slice()) {
        return true;
    }
    31 < y.class
}

/// Whether a symbol breaks a rule by itself.
pub fn breaks_as_symbol(p: &Parts, rule: SymbolRule, y: &ExtSym) -> bool
    ensures { result ≡ symbol_breaks p.now rule y.now }
{
    match rule {
        SymbolRule::Misvalued => is_misplaced_in(p, y.value, section_of_class(y.class)),
        SymbolRule::Unwritable => is_unwritable(y),
    }
}
