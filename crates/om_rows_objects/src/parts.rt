// Objects as text: `gp GP; section NUMBER ADDR SIZE BYTES RELOC RELOC ..; symbol NAME VALUE CLASS; ..`, where a relocation is
// `PLACE,INDEX,KIND`, and `PLACE,INDEX,KIND,external` where its index numbers a symbol.
use crate::files::{front_number, small};
use om_io::{Bytes, Listed, Name};
use om_object::{Parts, Section};
use om_reloc::{Reloc, RelocKind};
use om_rows::{Bad, bytes_of, number, text_of, word};
use om_symtab::ExtSym;
use std::alloc::{AllocError, Global};

/// A name of a section or a symbol: printable ASCII as it is, each other byte as `\` and two hexadecimal digits.
pub fn name_text(alloc: Global, name: &[u8]) -> Result<String, AllocError> {
    let mut text = String::new(alloc);
    for byte in name {
        if byte.is_ascii_graphic() {
            text.push(char::from(*byte))?;
        } else {
            let said = format!(in alloc; "\\{byte:02x}")?;
            text.push_str(said.as_str())?;
        }
    }
    Ok(text)
}

/// `; symbol NAME VALUE CLASS`
pub fn symbol_text(alloc: Global, symbol: &ExtSym) -> Result<String, AllocError> {
    let name = name_text(alloc, symbol.name.as_slice())?;
    format!(in alloc; "; symbol {name} {:#x} {}", symbol.value, symbol.class)
}

/// ` PLACE,INDEX,KIND` or ` PLACE,INDEX,KIND,external`
pub fn reloc_text(alloc: Global, reloc: &Reloc) -> Result<String, AllocError> {
    let external = if reloc.external { ",external" } else { "" };
    format!(in alloc;
        " {:#x},{},{:?}{external}",
        reloc.place, reloc.index, reloc.kind
    )
}

fn section_text(alloc: Global, section: &Section) -> Result<String, AllocError> {
    let bytes = text_of(alloc, section.bytes.as_slice())?;
    let mut text = format!(in alloc;
        "; section {} {:#x} {:#x} {bytes}",
        section.number, section.addr, section.size
    )?;
    for reloc in section.relocs.as_slice() {
        let said = reloc_text(alloc, reloc)?;
        text.push_str(said.as_str())?;
    }
    Ok(text)
}

/// The text of an object's parts.
pub fn parts_text(alloc: Global, parts: &Parts) -> Result<String, AllocError> {
    let mut text = format!(in alloc; "gp {:#x}", parts.gp)?;
    for section in parts.sections.as_slice() {
        let said = section_text(alloc, section)?;
        text.push_str(said.as_str())?;
    }
    for symbol in parts.symbols.as_slice() {
        let said = symbol_text(alloc, symbol)?;
        text.push_str(said.as_str())?;
    }
    Ok(text)
}

fn kind_of(text: &str) -> Option<RelocKind> {
    match text {
        "Ignore" => Some(RelocKind::Ignore),
        "RefLong" => Some(RelocKind::RefLong),
        "RefQuad" => Some(RelocKind::RefQuad),
        "GpRel32" => Some(RelocKind::GpRel32),
        "Literal" => Some(RelocKind::Literal),
        "LitUse" => Some(RelocKind::LitUse),
        "GpDisp" => Some(RelocKind::GpDisp),
        "BrAddr" => Some(RelocKind::BrAddr),
        "Hint" => Some(RelocKind::Hint),
        other => other.parse::<u8>().ok().map(RelocKind::Other),
    }
}

// The relocation of `PLACE,INDEX,KIND` or `PLACE,INDEX,KIND,external`.
fn reloc_of(text: &str) -> Option<Reloc> {
    let (place, rest) = text.split_once(',')?;
    let (index, rest) = rest.split_once(',')?;
    let (kind, external) = rest.split_once(',').unwrap_or((rest, ""));
    Some(Reloc {
        place: number(place)?,
        index: u32::try_from(number(index)?).ok()?,
        kind: kind_of(kind)?,
        external: external == "external",
    })
}

// Adds the relocation of a text, and as many as it says behind `*`.
fn add_relocs(relocs: &mut Vec<Reloc>, text: &str) -> Result<(), Bad> {
    let (one, times) = text.split_once('*').unwrap_or((text, "1"));
    let (Some(reloc), Some(times)) = (reloc_of(one), number(times)) else {
        return Err(Bad::Text);
    };
    for _ in 0..times {
        relocs.push(reloc)?;
    }
    Ok(())
}

// The section of `NUMBER ADDR SIZE BYTES RELOC RELOC ..`
fn section_of(alloc: Global, text: &str) -> Result<Section, Bad> {
    let (section, rest) = front_number(text)?;
    let (addr, rest) = front_number(rest)?;
    let (size, rest) = front_number(rest)?;
    let (bytes, rest) = word(rest);
    let mut relocs = Vec::new(alloc);
    for reloc in rest.split_ascii_whitespace() {
        add_relocs(&mut relocs, reloc)?;
    }
    Ok(Section {
        number: small(section)?,
        addr,
        size,
        bytes: Bytes::from_vec(bytes_of(alloc, bytes)?),
        relocs: Listed::from_vec(relocs),
    })
}

// The symbol of `NAME VALUE CLASS`
fn symbol_of(alloc: Global, text: &str) -> Result<ExtSym, Bad> {
    let (name, rest) = word(text);
    let (value, rest) = front_number(rest)?;
    let (class, _) = front_number(rest)?;
    Ok(ExtSym {
        name: Name::from_vec(name.as_bytes().to_vec(alloc)?),
        value,
        class: small(class)?,
    })
}

/// The parts that a text says. `Bad::Text` where it is not of the form.
pub fn parts_of(alloc: Global, text: &str) -> Result<Parts, Bad> {
    let mut gp = 0;
    let mut sections = Vec::new(alloc);
    let mut symbols = Vec::new(alloc);
    for part in text.split("; ") {
        let (what, rest) = word(part);
        match what {
            "gp" => gp = front_number(rest)?.0,
            "section" => sections.push(section_of(alloc, rest)?)?,
            "symbol" => symbols.push(symbol_of(alloc, rest)?)?,
            _ => return Err(Bad::Text),
        }
    }
    Ok(Parts {
        gp,
        sections: Listed::from_vec(sections),
        symbols: Listed::from_vec(symbols),
    })
}
