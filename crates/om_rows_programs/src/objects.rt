// Objects of rows, between `|`. An object has this form, in parts between `;`:
//
//     gp NUMBER                                       its GP value
//     section NUMBER ADDRESS SIZE WORD|RELOC ..       a section with its words and relocations
//     symbol NAME VALUE CLASS                         an external symbol
//
// RELOC is `ADDRESS:KIND:INDEX`, or `ADDRESS:KIND:INDEX:external` where the index is a symbol's.
use crate::scan::{code, small};
use om_io::{Bytes, Listed, Name};
use om_object::{MakeErr, Object, Parts, Section};
use om_reloc::{Reloc, RelocKind};
use om_rows::{Bad, number, word};
use om_symtab::ExtSym;
use std::alloc::Global;

/// What an object is made of so far.
#[derive(Drop)]
struct Last {
    gp: u64,
    sections: Vec<Section>,
    symbols: Vec<ExtSym>,
}

/// The kinds of the ECOFF object format's reloc.h
fn kind_of(text: &str) -> Option<RelocKind> {
    match text {
        "reflong" => Some(RelocKind::RefLong),
        "refquad" => Some(RelocKind::RefQuad),
        "gprel32" => Some(RelocKind::GpRel32),
        "literal" => Some(RelocKind::Literal),
        "lituse" => Some(RelocKind::LitUse),
        "gpdisp" => Some(RelocKind::GpDisp),
        "braddr" => Some(RelocKind::BrAddr),
        "hint" => Some(RelocKind::Hint),
        _ => None,
    }
}

fn reloc_of(text: &str) -> Option<Reloc> {
    let (place, rest) = text.split_once(':')?;
    let (kind, rest) = rest.split_once(':')?;
    let (index, external) = rest.split_once(':').unwrap_or((rest, ""));
    if !external.is_empty() && external != "external" {
        return None;
    }
    Some(Reloc {
        place: number(place)?,
        index: small(index)?,
        kind: kind_of(kind)?,
        external: !external.is_empty(),
    })
}

/// Adds a word's bytes, or a relocation.
fn add_content(bytes: &mut Vec<u8>, relocs: &mut Vec<Reloc>, said: &str) -> Result<(), Bad> {
    if let Some(word) = code(said) {
        bytes.extend_from_slice(&word.to_le_bytes())?;
        return Ok(());
    }
    relocs.push(reloc_of(said).ok_or(Bad::Text)?)?;
    Ok(())
}

/// `NUMBER ADDRESS SIZE WORD|RELOC ..`
fn section_of(alloc: Global, said: &str) -> Result<Section, Bad> {
    let (section, rest) = word(said);
    let (addr, rest) = word(rest);
    let (size, rest) = word(rest);
    let mut bytes = Vec::new(alloc);
    let mut relocs = Vec::new(alloc);
    for content in rest.split_ascii_whitespace() {
        add_content(&mut bytes, &mut relocs, content)?;
    }
    Ok(Section {
        number: section.parse::<u8>().ok().ok_or(Bad::Text)?,
        addr: number(addr).ok_or(Bad::Text)?,
        size: number(size).ok_or(Bad::Text)?,
        bytes: Bytes::from_vec(bytes),
        relocs: Listed::from_vec(relocs),
    })
}

/// `NAME VALUE CLASS`
fn symbol_of(alloc: Global, said: &str) -> Result<ExtSym, Bad> {
    let (name, rest) = word(said);
    let (value, class) = word(rest);
    Ok(ExtSym {
        name: Name::from_vec(Vec::from_slice(alloc, name.as_bytes())?),
        value: number(value).ok_or(Bad::Text)?,
        class: class.parse::<u8>().ok().ok_or(Bad::Text)?,
    })
}

/// The object of these parts. `Text` where they are none.
fn made_of(alloc: Global, last: Last) -> Result<Object, Bad> {
    let Last {
        gp,
        sections,
        symbols,
    } = last;
    let parts = Parts {
        gp,
        sections: Listed::from_vec(sections),
        symbols: Listed::from_vec(symbols),
    };
    match Object::make(alloc, parts) {
        Ok(object) => Ok(object),
        Err(MakeErr::NoMemory) => Err(Bad::NoMemory),
        Err(MakeErr::Rule { .. }) => Err(Bad::Text),
    }
}

/// Adds what one part of an object's text says.
fn add_part(alloc: Global, last: &mut Last, said: &str) -> Result<(), Bad> {
    let (kind, rest) = word(said);
    match kind {
        "gp" => last.gp = number(rest).ok_or(Bad::Text)?,
        "section" => last.sections.push(section_of(alloc, rest)?)?,
        "symbol" => last.symbols.push(symbol_of(alloc, rest)?)?,
        _ => return Err(Bad::Text),
    }
    Ok(())
}

fn object_of(alloc: Global, said: &str) -> Result<Object, Bad> {
    let mut last = Last {
        gp: 0,
        sections: Vec::new(alloc),
        symbols: Vec::new(alloc),
    };
    for part in said.split(';') {
        add_part(alloc, &mut last, part.trim())?;
    }
    made_of(alloc, last)
}

/// The objects of a text. `Text` where a part cannot be read, or an object's parts are no object.
pub fn objects_of(alloc: Global, said: &str) -> Result<Vec<Object>, Bad> {
    let mut objects = Vec::new(alloc);
    for object in said.split('|') {
        objects.push(object_of(alloc, object)?)?;
    }
    Ok(objects)
}
