// A whole object as a file.
ghost use Rattle.std.specs.Prelude.{◌≡◌, ◌+◌, ◌*◌, ◌^◌, ◌<◌, length, OnOk, IfOk};
ghost use Rattle.om_fields.specs.Bytes.{Grows};
ghost use Rattle.om_objwrite.specs.Lengths.{total_length, HasCounts};
ghost use Rattle.om_objwrite.specs.Written.{file_of, headers_part, sections_part, symbols_part, strings, tables_end, symbolic_at};
ghost use Rattle.om_objwrite.specs.LaidOut.{IsLaidOut};
ghost use Rattle.om_objwrite.specs.RoundTrip.{ReadsBack};

use crate::places::{Layout, lay_out};
use crate::relocations::push_tables;
use crate::sections::{push_bodies, push_heads};
use crate::symbols::{push_strings, push_symbolic_header, push_symbols, strings_size};
use crate::widths::parts_fit;
use om_fields::{push_file_header, push_optional_header, push_zeros};
use om_io::{Bytes, NoMemory};
use om_object::{Object, Parts};
use std::alloc::Global;

// Appends the file header, the optional header and the section headers.
fn push_headers(out: &mut Vec<u8>, parts: &Parts, at: &Layout) -> Result<(), NoMemory>
    requires fits { tables_end parts.now < 2 ^ 60 }
    requires counts { HasCounts parts.now }
    requires layout { IsLaidOut at.now parts.now }
    ensures { OnOk result (Grows out.old.items out.new.items (headers_part parts.now)) }
{
    let sections = parts.sections.as_slice();
    push_file_header(out, sections.len() as u16, at.symbolic, 144)?;
    push_optional_header(out, 0, parts.gp)?;
    push_heads(out, sections, at.bodies, at.tables)?;
    Ok(())
}

// Appends the sections' bytes and relocations, and the zeros behind them.
fn push_sections(out: &mut Vec<u8>, parts: &Parts, at: &Layout) -> Result<(), NoMemory>
    requires fits { tables_end parts.now < 2 ^ 60 }
    requires layout { IsLaidOut at.now parts.now }
    ensures { OnOk result (Grows out.old.items out.new.items (sections_part parts.now)) }
{
    let sections = parts.sections.as_slice();
    push_bodies(out, sections, at.bodies)?;
    push_tables(out, sections, at.tables)?;
    push_zeros(out, (at.symbolic - at.end) as usize)?;
    Ok(())
}

// Appends the symbolic header, the symbols and the strings.
fn push_symbolic(out: &mut Vec<u8>, parts: &Parts, at: &Layout, size: u32) -> Result<(), NoMemory>
    requires fits { tables_end parts.now < 2 ^ 60 }
    requires symbols { length parts.now.symbols < 2 ^ 32 }
    requires strings { length (strings parts.now.symbols) ≡ size }
    requires layout { IsLaidOut at.now parts.now }
    ensures { OnOk result (Grows out.old.items out.new.items (symbols_part parts.now)) }
{
    let symbols = parts.symbols.as_slice();
    push_symbolic_header(out, at.symbolic, symbols.len() as u32, size)?;
    push_symbols(out, symbols)?;
    push_strings(out, symbols)?;
    Ok(())
}

// The file of an object's parts. Memory is taken once, for the file.
pub fn write_parts(alloc: Global, parts: &Parts) -> Result<Bytes, NoMemory>
    requires total { total_length parts.now < 2 ^ 28 }
    requires counts { HasCounts parts.now }
    ensures { IfOk result (λ file. file ≡ file_of parts.now) }
{
    let at = lay_out(parts);
    let size = strings_size(parts.symbols.as_slice());
    let symbols = parts.symbols.as_slice().len() as u64;
    let mut out = Vec::with_capacity(
        alloc,
        (at.symbolic + 144 + 24 * symbols + size as u64) as usize,
    )?;
    push_headers(&mut out, parts, &at)?;
    push_sections(&mut out, parts, &at)?;
    push_symbolic(&mut out, parts, &at, size)?;
    Ok(Bytes::from_vec(out))
}

/// The file of an object, in the ECOFF object format: the headers; each section's bytes in order at the next
/// multiple of 16; each section's relocations at the next multiple of 8; then, at the next multiple of 8, the
/// symbolic header, the symbols, and their names with a zero byte each. A section without bytes or without
/// relocations has offset 0 there. The entry, the physical addresses, the types of symbols and the fields that are
/// not named here are 0.
///
/// The sections, bytes, relocations, symbols and bytes of names are fewer than 2^28 in all. It takes memory once, for
/// the file, and time linear in it. The file breaks no rule of object files, and the parts that are read of it are the
/// object's.
#[tactic(auto, using(crate::proofs::Objects::counts_fit))]
pub fn write_object(alloc: Global, o: &Object) -> Result<Bytes, NoMemory>
    requires { total_length o.now < 2 ^ 28 }
    ensures file { IfOk result (λ file. file ≡ file_of o.now) }
    ensures read { ReadsBack o.now }
{
    let parts = o.parts();
    parts_fit(parts);
    write_parts(alloc, parts)
}
