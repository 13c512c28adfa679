// The parts that a file holds.
ghost use Rattle.std.specs.Prelude.{◌≡◌, ◌<◌, ◌≤◌, ◌+◌, ◌*◌, ℕ, length, IfOk, false, List, [], ◌++◌, Some, unwrap_or, OnOk};
ghost use Rattle.om_fields.specs.Places.{each, put_if, is_past};
ghost use Rattle.om_fields.specs.Sections.{is_bss as has_none};
ghost use Rattle.om_fields.specs.HeaderFields.{section_count, head_of, number_of};
ghost use Rattle.om_symtab.specs.Symbols.{HasTables};
ghost use Rattle.om_reloc.specs.Relocs.{relocs_of as relocs_in, table_is_past};
ghost use Rattle.om_object.specs.File.{bytes_of_section, section_by, is_loaded, section_of_head, sym_at, parts_of as parts_in, origins_of as origins_in, origin_of, HasSections};

use crate::origin::{Origin, Origins};
use crate::parts::{Parts, Section};
use om_fields::{FieldErr, SecHead, section_number, u64_at};
use om_io::{Bytes, Listed, NoMemory};
use om_reloc::{Reloc, read_relocs_early};
use om_symtab::{symbols, symbols_place};
use std::alloc::Global;

fn is_bss(number: u8) -> bool
    ensures { result ≡ has_none number }
{
    number == 5 || number == 6
}

// A section's bytes.
fn bytes_of(alloc: Global, bytes: &[u8], number: u8, head: &SecHead) -> Result<Bytes, NoMemory>
    requires { has_none number ≡ false → is_past (length bytes.now) head.now.bytes_at head.now.size ≡ false }
    ensures { IfOk result (λ found. found ≡ bytes_of_section bytes.now number head.now) }
{
    if is_bss(number) {
        return Ok(Bytes::from_vec(Vec::new(alloc)));
    }
    if head.size == 0 {
        return Ok(Bytes::from_vec(Vec::new(alloc)));
    }
    let items = bytes[head.bytes_at as usize..][..head.size as usize].to_vec(alloc)?;
    Ok(Bytes::from_vec(items))
}

// A section's relocations, which lie in the file, whatever their number.
#[tactic(auto, using(crate::proofs::HeadsAt::no_table_fault))]
fn relocs_of(
    alloc: Global,
    bytes: &[u8],
    head: &SecHead,
    head_at: u64,
) -> Result<Listed<Reloc>, NoMemory>
    requires { table_is_past bytes.now head.now ≡ false }
    ensures { IfOk result (λ relocs. relocs ≡ relocs_in bytes.now head.now) }
{
    match read_relocs_early(alloc, bytes, head, head_at) {
        Ok(relocs) => Ok(relocs),
        Err(FieldErr::NoMemory) => Err(NoMemory),
        Err(FieldErr::Rule { .. }) => unreachable!(),
    }
}

// A loaded section.
fn section(
    alloc: Global,
    bytes: &[u8],
    number: u8,
    head: &SecHead,
    head_at: u64,
) -> Result<Section, NoMemory>
    requires inside { has_none number ≡ false → is_past (length bytes.now) head.now.bytes_at head.now.size ≡ false }
    requires table { table_is_past bytes.now head.now ≡ false }
    ensures { IfOk result (λ section. section ≡ section_by bytes.now number head.now) }
{
    let content = bytes_of(alloc, bytes, number, head)?;
    let relocs = relocs_of(alloc, bytes, head, head_at)?;
    Ok(Section {
        number,
        addr: head.addr,
        size: head.size,
        bytes: content,
        relocs,
    })
}

// Where a section's header, bytes and relocations stand.
fn origin(head: &SecHead, k: usize) -> Origin
    requires { k < 65536 }
    ensures result_head { result.head ≡ 104 + 64 * k }
    ensures bytes { result.bytes ≡ head.now.bytes_at }
    ensures relocs { result.relocs ≡ head.now.relocs_at }
{
    Origin {
        head: 104 + 64 * k as u64,
        bytes: head.bytes_at,
        relocs: head.relocs_at,
    }
}

// Adds a section with its origin, if it is a loaded one.
fn add_section(
    alloc: Global,
    bytes: &[u8],
    head: &SecHead,
    k: usize,
    sections: &mut Vec<Section>,
    origins: &mut Vec<Origin>,
) -> Result<(), NoMemory>
    requires inside { k < section_count bytes.now }
    requires small { k < 65536 }
    requires head { head.now ≡ head_of bytes.now k }
    requires fits { HasSections bytes.now }
    ensures sections { OnOk result (sections.new.items ≡ sections.old.items ++ put_if (is_loaded bytes.now k) (section_of_head bytes.now k) []) }
    ensures origins { OnOk result (origins.new.items ≡ origins.old.items ++ put_if (is_loaded bytes.now k) (origin_of bytes.now k) []) }
{
    let Some(number) = section_number(head.name.as_slice()) else {
        return Ok(());
    };
    let place = origin(head, k);
    let section = section(alloc, bytes, number, head, place.head)?;
    sections.push(section)?;
    origins.push(place)?;
    Ok(())
}

// The loaded sections with their origins.
fn all_sections(
    alloc: Global,
    bytes: &[u8],
    heads: &[SecHead],
) -> Result<(Vec<Section>, Vec<Origin>), NoMemory>
    requires small { section_count bytes.now < 65536 }
    requires heads { heads.now ≡ each (head_of bytes.now) (section_count bytes.now) }
    requires fits { HasSections bytes.now }
    ensures sections { IfOk result (λ found. found.0.items ≡ (parts_in bytes.now).sections) }
    ensures origins { IfOk result (λ found. found.1.items ≡ (origins_in bytes.now).sections) }
{
    let mut sections = Vec::new(alloc);
    let mut origins = Vec::new(alloc);
    for k in 0..heads.len() {
        add_section(alloc, bytes, &heads[k], k, &mut sections, &mut origins)?;
    }
    Ok((sections, origins))
}

/// The parts that a file holds whose headers, sections and symbols lie in it, and where they stand.
pub fn parts_of(
    alloc: Global,
    bytes: &[u8],
    heads: &[SecHead],
) -> Result<(Parts, Origins), NoMemory>
    requires long { 104 ≤ length bytes.now }
    requires small { section_count bytes.now < 65536 }
    requires heads { heads.now ≡ each (head_of bytes.now) (section_count bytes.now) }
    requires fits { HasSections bytes.now }
    requires tables { HasTables bytes.now (sym_at bytes.now) }
    ensures parts { IfOk result (λ found. found.0 ≡ parts_in bytes.now) }
    ensures origins { IfOk result (λ found. found.1 ≡ origins_in bytes.now) }
{
    let at = u64_at(bytes, 8);
    let (sections, origins) = all_sections(alloc, bytes, heads)?;
    let parts = Parts {
        gp: u64_at(bytes, 96),
        sections: Listed::from_vec(sections),
        symbols: symbols(alloc, bytes, at)?,
    };
    let places = Origins {
        sections: Listed::from_vec(origins),
        symbols: symbols_place(bytes, at),
    };
    Ok((parts, places))
}
