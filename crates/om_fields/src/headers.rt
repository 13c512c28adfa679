// The headers of object files and images, put at the end of what is written.
ghost use Rattle.std.specs.Prelude.{◌≡◌, OnOk, OnErr};
ghost use Rattle.om_fields.specs.Bytes.{Grows, KeepsFront};
ghost use Rattle.om_fields.specs.Headers.{file_header, optional_header, section_header, section_place};

use crate::writing::{push_u16, push_u32, push_u64, push_zeros};
use om_io::NoMemory;

/// Appends a file header of the ECOFF object format, of 24 bytes: how many section headers follow the
/// optional header, and the byte offset and the size of the symbolic header (both 0 where there is none). The
/// magic number is that of Alpha, 0183; the time and the flags are 0. After `NoMemory` a part of it may have
/// been appended.
#[tactic(auto, unfolding(crate::specs::Headers::file_header), using(crate::proofs::Appending::more, crate::proofs::Appending::unchanged_keeps, crate::proofs::Appending::grown_keeps))]
pub fn push_file_header(
    out: &mut Vec<u8>,
    sections: u16,
    symbols_at: u64,
    symbols_size: u32,
) -> Result<(), NoMemory>
    ensures ok { OnOk result (Grows out.old.items out.new.items (file_header sections symbols_at symbols_size)) }
    ensures err { OnErr result (KeepsFront out.old.items out.new.items) }
{
    push_u16(out, 0x0183)?;
    push_u16(out, sections)?;
    push_zeros(out, 4)?;
    push_u64(out, symbols_at)?;
    push_u32(out, symbols_size)?;
    push_u16(out, 80)?;
    push_zeros(out, 2)?;
    Ok(())
}

/// Appends an optional header of the ECOFF object format, of 80 bytes: the address of the entry and the
/// GP value. The fields that are not named are 0. After `NoMemory` a part of it may have been appended.
#[tactic(auto, unfolding(crate::specs::Headers::optional_header), using(crate::proofs::Appending::more, crate::proofs::Appending::unchanged_keeps, crate::proofs::Appending::grown_keeps))]
pub fn push_optional_header(out: &mut Vec<u8>, entry: u64, gp: u64) -> Result<(), NoMemory>
    ensures ok { OnOk result (Grows out.old.items out.new.items (optional_header entry gp)) }
    ensures err { OnErr result (KeepsFront out.old.items out.new.items) }
{
    push_zeros(out, 32)?;
    push_u64(out, entry)?;
    push_zeros(out, 32)?;
    push_u64(out, gp)?;
    Ok(())
}

/// Appends a section header of the ECOFF object format, of 64 bytes: the name padded with zeros, the address
/// and the size of the section in bytes, the byte offset of its bytes in the file (0 where it has none), and the byte
/// offset and the number of its relocations. The physical address and the fields that are not named are 0.
/// After `NoMemory` a part of it may have been appended.
#[tactic(auto, unfolding(crate::specs::Headers::section_header), using(crate::proofs::Appending::more, crate::proofs::Appending::unchanged_keeps, crate::proofs::Appending::grown_keeps))]
pub fn push_section_header(
    out: &mut Vec<u8>,
    name: &[u8; 8],
    address: u64,
    size: u64,
    bytes_at: u64,
    relocs_at: u64,
    relocs: u16,
) -> Result<(), NoMemory>
    ensures ok { OnOk result (Grows out.old.items out.new.items (section_header name.now address size bytes_at relocs_at relocs)) }
    ensures err { OnErr result (KeepsFront out.old.items out.new.items) }
{
    push_section_place(out, name, address, size)?;
    push_u64(out, bytes_at)?;
    push_u64(out, relocs_at)?;
    push_zeros(out, 8)?;
    push_u16(out, relocs)?;
    push_zeros(out, 6)?;
    Ok(())
}

// The first half of a section header: the name, the physical address, which is 0, the address and the size.
#[tactic(auto, unfolding(crate::specs::Headers::section_place), using(crate::proofs::Appending::more, crate::proofs::Appending::unchanged_keeps, crate::proofs::Appending::grown_keeps))]
fn push_section_place(
    out: &mut Vec<u8>,
    name: &[u8; 8],
    address: u64,
    size: u64,
) -> Result<(), NoMemory>
    ensures ok { OnOk result (Grows out.old.items out.new.items (section_place name.now address size)) }
    ensures err { OnErr result (KeepsFront out.old.items out.new.items) }
{
    out.extend_from_slice(name)?;
    push_zeros(out, 8)?;
    push_u64(out, address)?;
    push_u64(out, size)?;
    Ok(())
}
