// Reading the external symbols of an object file.
ghost use Rattle.std.specs.Prelude.{◌≡◌, ◌≢◌, ◌≤◌, ◌<◌, ◌+◌, ◌*◌, length, IfOk, false, not, take_while, drop, ◌==◌};
ghost use Rattle.om_fields.specs.Places.{each, is_past as runs_out};
ghost use Rattle.om_fields.specs.Answers.{Reads};
ghost use Rattle.om_symtab.specs.Symbols.{strings as strings_of, strings_at, strings_size, symbol_count, symbols_at, symbol_of, symbols_of, symbol_rules, name_onward, HasTables};

use crate::symbol::ExtSym;
use crate::symbol_rules::{count, first_fault, strings, symbol_place};
use om_fields::{FieldErr, u16_at, u32_at, u64_at};
use om_io::{Listed, Name, NoMemory};
use std::alloc::Global;

// The most bytes that the names of one file's symbols may have together, each with the zero that ends it: as many as all
// files of one call may have. Names overlap where symbols share one, or where one is the end of another; only then can
// they have more.
const NAMES_ROOM: usize = 268_435_456;

// The bytes before the first zero, which is looked for in the first `room` bytes; `NoMemory` where it is none of them and
// others follow.
pub(crate) fn before_zero(bytes: &[u8], room: usize) -> Result<&[u8], NoMemory>
    ensures { IfOk result (λ front. front.now ≡ take_while (λ c. not (c == 0)) bytes.now) }
{
    for i in 0..bytes.len() {
        if i >= room {
            return Err(NoMemory);
        }
        if bytes[i] == 0 {
            return Ok(&bytes[..i]);
        }
    }
    Ok(bytes)
}

// The bytes from an index on, of which there may be none.
fn onward(bytes: &[u8], index: usize) -> &[u8]
    ensures { result.now ≡ drop index bytes.now }
{
    if index < bytes.len() {
        return &bytes[index..];
    }
    &bytes[..0]
}

// The `j`-th external symbol. Its name and the zero behind it find room in `room` bytes; else `NoMemory`.
fn symbol(alloc: Global, bytes: &[u8], at: u64, j: usize, room: usize) -> Result<ExtSym, NoMemory>
    requires tables { HasTables bytes.now at }
    requires inside { j < symbol_count bytes.now at }
    ensures { IfOk result (λ symbol. symbol ≡ symbol_of bytes.now at j) }
{
    let place = symbol_place(bytes, at, j);
    let index = u32_at(bytes, place + 8) as usize;
    let name = before_zero(onward(strings(bytes, at), index), room)?.to_vec(alloc)?;
    Ok(ExtSym {
        name: Name::from_vec(name),
        value: u64_at(bytes, place),
        class: (u32_at(bytes, place + 12) / 64 % 32) as u8,
    })
}

// The room that a symbol's name and the zero behind it leave.
fn room_left(room: usize, symbol: &ExtSym) -> usize {
    room.saturating_sub(symbol.name.as_slice().len())
        .saturating_sub(1)
}

/// The external symbols of a file whose symbolic header and tables lie in it, in their order; `NoMemory` also where their
/// names, each with its zero, have more than `room` bytes together. No more bytes than these are looked at or copied.
#[tactic(auto, using(crate::proofs::InOrder::symbols_snoc))]
pub(crate) fn symbols_within(
    alloc: Global,
    bytes: &[u8],
    at: u64,
    room: usize,
) -> Result<Listed<ExtSym>, NoMemory>
    requires tables { HasTables bytes.now at }
    ensures { IfOk result (λ symbols. symbols ≡ symbols_of bytes.now at) }
{
    let mut symbols = Vec::new(alloc);
    let mut left = room;
    for j in 0..count(bytes, at) {
        let symbol = symbol(alloc, bytes, at, j, left)?;
        left = room_left(left, &symbol);
        symbols.push(symbol)?;
    }
    Ok(Listed::from_vec(symbols))
}

/// The external symbols of a file whose symbolic header and tables lie in it, in their order. A name that no zero ends goes
/// to the end of the strings. `NoMemory` also where the names have more than 268,435,456 bytes together (see
/// `read_symbols`).
pub fn symbols(alloc: Global, bytes: &[u8], at: u64) -> Result<Listed<ExtSym>, NoMemory>
    requires tables { HasTables bytes.now at }
    ensures { IfOk result (λ symbols. symbols ≡ symbols_of bytes.now at) }
{
    symbols_within(alloc, bytes, at, NAMES_ROOM)
}

/// The external symbols of a file whose symbolic header stands at `sym_at` (a byte offset; 0 where there is none), in
/// their order, or the least broken rule of 7 and 8 with its least place, a byte offset in the file. `NoMemory` says nothing
/// of the file.
///
/// Rule 7: the symbolic header or one of its two tables runs past the end, or it has another magic number; its place is
/// `sym_at`. Rule 8: a name's index is outside the strings, or no zero byte follows in them; its place is the symbol's.
/// An empty table never runs past the end. The fields are those of the symbolic header and of external symbols of the ECOFF
/// object format for Alpha.
///
/// Symbols may share a name, so a small file can ask for many bytes of names: where they have more than 268,435,456 bytes
/// together, each with its zero, the answer is `NoMemory`, and no more than these are looked at or copied. Names that do not
/// overlap have no more bytes than the file.
#[tactic(auto, using(crate::proofs::InOrder::fault_is, crate::proofs::InOrder::unbroken))]
pub fn read_symbols(alloc: Global, bytes: &[u8], sym_at: u64) -> Result<Listed<ExtSym>, FieldErr>
    ensures { Reads (symbol_rules sym_at) bytes.now (symbols_of bytes.now sym_at) result }
{
    if let Some((rule, at)) = first_fault(bytes, sym_at) {
        return Err(FieldErr::Rule { rule, at });
    }
    Ok(symbols(alloc, bytes, sym_at)?)
}
