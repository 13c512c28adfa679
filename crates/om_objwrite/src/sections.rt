// The section headers and the bytes of the sections of a written object.
ghost use Rattle.std.specs.Prelude.{◌≡◌, ◌+◌, ◌^◌, ◌<◌, length, All, OnOk};
ghost use Rattle.om_fields.specs.Bytes.{Grows};
ghost use Rattle.om_fields.specs.Headers.{section_header};
ghost use Rattle.om_objwrite.specs.Written.{name_bytes, table_of, block_place as place_of, section_headers, bodies as bodies_of, tables as tables_of, blocks, blocks_end};

use crate::blocks::{block_end, block_place, push_block};
use crate::places::table_size;
use om_fields::push_section_header;
use om_io::NoMemory;
use om_object::Section;

// A loaded section's name as it stands in its header.
fn section_name(number: u8) -> &'static [u8; 8]
    ensures { result.now ≡ name_bytes number }
{
    match number {
        1 => b".text\0\0\0",
        2 => b".rdata\0\0",
        3 => b".data\0\0\0",
        4 => b".sdata\0\0",
        5 => b".sbss\0\0\0",
        6 => b".bss\0\0\0\0",
        8 => b".lit8\0\0\0",
        9 => b".lit4\0\0\0",
        13 => b".lita\0\0\0",
        15 => b".rconst\0",
        _ => b"\0\0\0\0\0\0\0\0",
    }
}

// Appends the header of a section whose bytes follow one place, and whose relocations follow another.
fn push_head(out: &mut Vec<u8>, s: &Section, bodies: u64, tables: u64) -> Result<(), NoMemory>
    requires bodies { bodies < 2 ^ 62 }
    requires tables { tables < 2 ^ 62 }
    requires small { length (table_of s.now) < 2 ^ 62 }
    requires count { length s.now.relocs < 2 ^ 16 }
    ensures { OnOk result (Grows out.old.items out.new.items (section_header (name_bytes s.now.number) s.now.addr s.now.size (place_of 16 bodies (length s.now.bytes)) (place_of 8 tables (length (table_of s.now))) (length s.now.relocs))) }
{
    let bytes_at = block_place(bodies, 16, s.bytes.as_slice().len() as u64);
    let relocs_at = block_place(tables, 8, table_size(s));
    let relocs = s.relocs.as_slice().len() as u16;
    push_section_header(
        out,
        section_name(s.number),
        s.addr,
        s.size,
        bytes_at,
        relocs_at,
        relocs,
    )?;
    Ok(())
}

/// Appends the headers of sections whose bytes follow the place `bodies`, and whose relocations follow the
/// place `tables`.
pub fn push_heads(
    out: &mut Vec<u8>,
    sections: &[Section],
    bodies: u64,
    tables: u64,
) -> Result<(), NoMemory>
    requires bodies { blocks_end 16 bodies (bodies_of sections.now) < 2 ^ 62 }
    requires tables { blocks_end 8 tables (tables_of sections.now) < 2 ^ 62 }
    requires counts { All (λ s. length s.relocs < 2 ^ 16) sections.now }
    ensures { OnOk result (Grows out.old.items out.new.items (section_headers bodies tables sections.now)) }
{
    let mut body = bodies;
    let mut table = tables;
    for s in sections {
        push_head(out, s, body, table)?;
        body = block_end(body, 16, s.bytes.as_slice().len() as u64);
        table = block_end(table, 8, table_size(s));
    }
    Ok(())
}

/// Appends the bytes of sections, which follow the place `at`, each at the next multiple of 16.
pub fn push_bodies(out: &mut Vec<u8>, sections: &[Section], at: u64) -> Result<(), NoMemory>
    requires { blocks_end 16 at (bodies_of sections.now) < 2 ^ 62 }
    ensures { OnOk result (Grows out.old.items out.new.items (blocks 16 at (bodies_of sections.now))) }
{
    let mut place = at;
    for s in sections {
        place = push_block(out, place, 16, s.bytes.as_slice())?;
    }
    Ok(())
}
