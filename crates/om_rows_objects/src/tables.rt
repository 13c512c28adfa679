// Rows on the symbols and the relocation tables of a file.
use crate::files::{file_of, front_number, half};
use crate::parts::{reloc_text, symbol_text};
use om_fields::{FieldErr, SecHead};
use om_io::{Listed, Name};
use om_reloc::{Reloc, read_relocs, read_relocs_early};
use om_rows::Bad;
use om_symtab::{ExtSym, read_symbols};
use std::alloc::{AllocError, Global};

fn symbols_text(
    alloc: Global,
    read: Result<Listed<ExtSym>, FieldErr>,
) -> Result<String, AllocError> {
    let symbols = match read {
        Ok(symbols) => symbols,
        Err(error) => return format!(in alloc; "{error}"),
    };
    let mut text = String::from_str(alloc, "symbols")?;
    for symbol in symbols.as_slice() {
        let said = symbol_text(alloc, symbol)?;
        text.push_str(said.as_str())?;
    }
    Ok(text)
}

/// `symbols PLACE FILE`: the symbols by the symbolic header at a place, or the broken rule.
pub fn symbols(rt: &HostRuntime, alloc: Global, input: &str) -> Result<String, Bad> {
    let (at, rest) = front_number(input)?;
    let file = file_of(rt, alloc, rest)?;
    Ok(symbols_text(alloc, read_symbols(alloc, &file, at))?)
}

/// `symbol_count PLACE FILE`: how many symbols there are, or the broken rule.
pub fn symbol_count(rt: &HostRuntime, alloc: Global, input: &str) -> Result<String, Bad> {
    let (at, rest) = front_number(input)?;
    let file = file_of(rt, alloc, rest)?;
    Ok(match read_symbols(alloc, &file, at) {
        Ok(symbols) => format!(in alloc; "{}", symbols.as_slice().len())?,
        Err(error) => format!(in alloc; "{error}")?,
    })
}

// A relocation table in a file, of so many entries at an offset, and the place of its section's header.
#[derive(Drop)]
struct EntryTable {
    file: Vec<u8>,
    head: SecHead,
    place: u64,
}

// The table of `AT COUNT PLACE FILE`.
fn table_of(rt: &HostRuntime, alloc: Global, input: &str) -> Result<EntryTable, Bad> {
    let (relocs_at, rest) = front_number(input)?;
    let (count, rest) = front_number(rest)?;
    let (place, rest) = front_number(rest)?;
    let head = SecHead {
        name: Name::from_vec(b".rconst\0".to_vec(alloc)?),
        addr: 0,
        size: 16,
        bytes_at: 0,
        relocs_at,
        relocs: half(count)?,
    };
    let file = file_of(rt, alloc, rest)?;
    Ok(EntryTable { file, head, place })
}

fn relocs_text(alloc: Global, read: Result<Listed<Reloc>, FieldErr>) -> Result<String, AllocError> {
    let relocs = match read {
        Ok(relocs) => relocs,
        Err(error) => return format!(in alloc; "{error}"),
    };
    let mut text = String::from_str(alloc, "relocs")?;
    for reloc in relocs.as_slice() {
        let said = reloc_text(alloc, reloc)?;
        text.push_str(said.as_str())?;
    }
    Ok(text)
}

fn count_text(alloc: Global, read: Result<Listed<Reloc>, FieldErr>) -> Result<String, AllocError> {
    match read {
        Ok(relocs) => format!(in alloc; "{}", relocs.as_slice().len()),
        Err(error) => format!(in alloc; "{error}"),
    }
}

/// `relocs AT COUNT PLACE FILE`: the entries of a table, or the broken rule.
pub fn relocs(rt: &HostRuntime, alloc: Global, input: &str) -> Result<String, Bad> {
    let t = table_of(rt, alloc, input)?;
    let read = read_relocs(alloc, &t.file, &t.head, t.place);
    Ok(relocs_text(alloc, read)?)
}

/// `early_relocs AT COUNT PLACE FILE`: the entries of a table, or the broken rule other than 26.
pub fn early_relocs(rt: &HostRuntime, alloc: Global, input: &str) -> Result<String, Bad> {
    let t = table_of(rt, alloc, input)?;
    let read = read_relocs_early(alloc, &t.file, &t.head, t.place);
    Ok(relocs_text(alloc, read)?)
}

/// `table AT COUNT PLACE FILE`: how many entries a table has, or the broken rule.
pub fn table(rt: &HostRuntime, alloc: Global, input: &str) -> Result<String, Bad> {
    let t = table_of(rt, alloc, input)?;
    let read = read_relocs(alloc, &t.file, &t.head, t.place);
    Ok(count_text(alloc, read)?)
}

/// `early_table AT COUNT PLACE FILE`: how many entries a table has, or the broken rule other than 26.
pub fn early_table(rt: &HostRuntime, alloc: Global, input: &str) -> Result<String, Bad> {
    let t = table_of(rt, alloc, input)?;
    let read = read_relocs_early(alloc, &t.file, &t.head, t.place);
    Ok(count_text(alloc, read)?)
}
