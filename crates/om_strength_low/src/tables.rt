// Callers of the readers of symbols and of relocation tables.
ghost use Rattle.om_fields.specs.Answers.{Reads};
ghost use Rattle.om_symtab.specs.Symbols.{symbol_rules, symbols_of};
ghost use Rattle.om_reloc.specs.Relocs.{table_rules, early_table_rules, relocs_of};

use om_fields::{FieldErr, SecHead};
use om_io::Listed;
use om_reloc::{Reloc, read_relocs, read_relocs_early};
use om_symtab::{ExtSym, read_symbols};
use std::alloc::Global;

pub fn symbols(alloc: Global, bytes: &[u8], at: u64) -> Result<Listed<ExtSym>, FieldErr>
    ensures { Reads (symbol_rules at) bytes.now (symbols_of bytes.now at) result }
{
    read_symbols(alloc, bytes, at)
}

pub fn entries(
    alloc: Global,
    bytes: &[u8],
    head: &SecHead,
    at: u64,
) -> Result<Listed<Reloc>, FieldErr>
    ensures { Reads (table_rules head.now at) bytes.now (relocs_of bytes.now head.now) result }
{
    read_relocs(alloc, bytes, head, at)
}

pub fn early_entries(
    alloc: Global,
    bytes: &[u8],
    head: &SecHead,
    at: u64,
) -> Result<Listed<Reloc>, FieldErr>
    ensures { Reads (early_table_rules head.now at) bytes.now (relocs_of bytes.now head.now) result }
{
    read_relocs_early(alloc, bytes, head, at)
}
