// The relocations of a written object.
ghost use Rattle.std.specs.Prelude.{◌≡◌, ◌+◌, ◌^◌, ◌<◌, length, flat_map, OnOk, IfOk};
ghost use Rattle.om_fields.specs.Bytes.{Grows};
ghost use Rattle.om_reloc.specs.Relocs.{kind_code as code_of};
ghost use Rattle.om_objwrite.specs.Written.{external_bit as bit_of, kind_bytes, reloc_bytes, table_of, tables as tables_of, block, blocks, block_end as end_of, blocks_end};

use crate::blocks::{block_end, push_gap};
use crate::places::table_size;
use om_fields::{push_u32, push_u64};
use om_io::NoMemory;
use om_object::Section;
use om_reloc::{Reloc, RelocKind};

// The number of a relocation type.
fn kind_code(kind: RelocKind) -> u8
    ensures { result ≡ code_of kind }
{
    match kind {
        RelocKind::Ignore => 0,
        RelocKind::RefLong => 1,
        RelocKind::RefQuad => 2,
        RelocKind::GpRel32 => 3,
        RelocKind::Literal => 4,
        RelocKind::LitUse => 5,
        RelocKind::GpDisp => 6,
        RelocKind::BrAddr => 7,
        RelocKind::Hint => 8,
        RelocKind::Other(n) => n,
    }
}

// The lowest bit says whether an index is a symbol's.
fn external_bit(external: bool) -> u8
    ensures { result ≡ bit_of external }
{
    if external { 1 } else { 0 }
}

// Appends an entry's last four bytes.
fn push_kind(out: &mut Vec<u8>, kind: RelocKind, external: bool) -> Result<(), NoMemory>
    ensures { OnOk result (Grows out.old.items out.new.items (kind_bytes kind external)) }
{
    out.extend_from_slice(&[kind_code(kind), external_bit(external), 0, 0])?;
    Ok(())
}

// Appends an entry: the address, the index, the type, and whether the index is a symbol's.
#[tactic(auto, unfolding(crate::specs::Written::reloc_bytes))]
fn push_reloc(out: &mut Vec<u8>, r: &Reloc) -> Result<(), NoMemory>
    ensures { OnOk result (Grows out.old.items out.new.items (reloc_bytes r.now)) }
{
    push_u64(out, r.place)?;
    push_u32(out, r.index)?;
    push_kind(out, r.kind, r.external)?;
    Ok(())
}

// Appends the entries in order.
fn push_relocs(out: &mut Vec<u8>, relocs: &[Reloc]) -> Result<(), NoMemory>
    ensures { OnOk result (Grows out.old.items out.new.items (flat_map reloc_bytes relocs.now)) }
{
    for r in relocs {
        push_reloc(out, r)?;
    }
    Ok(())
}

// Appends a section's relocations as a block that follows a place, and gives back where it ends.
fn push_table(out: &mut Vec<u8>, at: u64, s: &Section) -> Result<u64, NoMemory>
    requires low { at < 2 ^ 62 }
    requires small { length (table_of s.now) < 2 ^ 62 }
    requires fits { end_of 8 at (length (table_of s.now)) < 2 ^ 62 }
    ensures block { OnOk result (Grows out.old.items out.new.items (block 8 at (table_of s.now))) }
    ensures end { IfOk result (λ end. end ≡ end_of 8 at (length (table_of s.now))) }
{
    push_gap(out, at, 8, table_size(s))?;
    push_relocs(out, s.relocs.as_slice())?;
    Ok(block_end(at, 8, table_size(s)))
}

/// Appends the relocations of sections, which follow the place `at`, each table at the next multiple of 8.
pub fn push_tables(out: &mut Vec<u8>, sections: &[Section], at: u64) -> Result<(), NoMemory>
    requires { blocks_end 8 at (tables_of sections.now) < 2 ^ 62 }
    ensures { OnOk result (Grows out.old.items out.new.items (blocks 8 at (tables_of sections.now))) }
{
    let mut place = at;
    for s in sections {
        place = push_table(out, place, s)?;
    }
    Ok(())
}
