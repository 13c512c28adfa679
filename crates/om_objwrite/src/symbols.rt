// The symbols of a written object.
ghost use Rattle.std.specs.Prelude.{◌≡◌, ◌+◌, ◌*◌, ◌^◌, ◌<◌, length, OnOk};
ghost use Rattle.om_fields.specs.Bytes.{Grows};
ghost use Rattle.om_objwrite.specs.Written.{counts_part, symbolic_header, symbol_bytes, symbol_table, string_of, strings as strings_of};

use om_fields::{push_u16, push_u32, push_u64, push_zeros};
use om_io::NoMemory;
use om_symtab::ExtSym;

/// How many bytes the strings of symbols have: each name with a zero byte.
pub fn strings_size(symbols: &[ExtSym]) -> u32
    requires { length (strings_of symbols.now) < 2 ^ 32 }
    ensures { result ≡ length (strings_of symbols.now) }
{
    let mut size = 0;
    for y in symbols {
        size += y.name.as_slice().len() as u32 + 1;
    }
    size
}

// Appends the symbolic header's fields up to the number of symbols.
fn push_counts(out: &mut Vec<u8>, symbols: u32, size: u32) -> Result<(), NoMemory>
    ensures { OnOk result (Grows out.old.items out.new.items (counts_part symbols size)) }
{
    push_u16(out, 0x1992)?;
    push_zeros(out, 30)?;
    push_u32(out, size)?;
    push_zeros(out, 8)?;
    push_u32(out, symbols)?;
    Ok(())
}

/// Appends a symbolic header, of 144 bytes, that stands at the place `at`: the symbols follow it, and
/// the strings follow them.
#[tactic(auto, unfolding(crate::specs::Written::symbolic_header))]
pub fn push_symbolic_header(
    out: &mut Vec<u8>,
    at: u64,
    symbols: u32,
    size: u32,
) -> Result<(), NoMemory>
    requires { at < 2 ^ 63 }
    ensures { OnOk result (Grows out.old.items out.new.items (symbolic_header at symbols size)) }
{
    push_counts(out, symbols, size)?;
    push_zeros(out, 64)?;
    push_u64(out, at + 144 + 24 * symbols as u64)?;
    push_zeros(out, 16)?;
    push_u64(out, at + 144)?;
    Ok(())
}

// Appends a symbol: the value, the index of its name in the strings, and its storage class.
#[tactic(auto, unfolding(crate::specs::Written::symbol_bytes))]
fn push_symbol(out: &mut Vec<u8>, y: &ExtSym, index: u32) -> Result<(), NoMemory>
    ensures { OnOk result (Grows out.old.items out.new.items (symbol_bytes y.now index)) }
{
    push_u64(out, y.value)?;
    push_u32(out, index)?;
    push_u32(out, 64 * y.class as u32)?;
    push_zeros(out, 8)?;
    Ok(())
}

/// Appends the symbols in order, of 24 bytes each, whose names stand in the strings in that order.
pub fn push_symbols(out: &mut Vec<u8>, symbols: &[ExtSym]) -> Result<(), NoMemory>
    requires { length (strings_of symbols.now) < 2 ^ 32 }
    ensures { OnOk result (Grows out.old.items out.new.items (symbol_table 0 symbols.now)) }
{
    let mut index = 0;
    for y in symbols {
        push_symbol(out, y, index)?;
        index += y.name.as_slice().len() as u32 + 1;
    }
    Ok(())
}

// Appends a name with a zero byte.
fn push_string(out: &mut Vec<u8>, y: &ExtSym) -> Result<(), NoMemory>
    ensures { OnOk result (Grows out.old.items out.new.items (string_of y.now)) }
{
    out.extend_from_slice(y.name.as_slice())?;
    out.push(0)?;
    Ok(())
}

/// Appends the names of symbols in order, each with a zero byte.
pub fn push_strings(out: &mut Vec<u8>, symbols: &[ExtSym]) -> Result<(), NoMemory>
    ensures { OnOk result (Grows out.old.items out.new.items (strings_of symbols.now)) }
{
    for y in symbols {
        push_string(out, y)?;
    }
    Ok(())
}
