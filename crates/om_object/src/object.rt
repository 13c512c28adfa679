// Objects, and how object files are read.
ghost use Rattle.std.specs.Prelude.{◌≡◌, IfOk};
ghost use Rattle.om_object.specs.Rules.{IsObject as IsAnObject};
ghost use Rattle.om_object.specs.File.{ReadsParts, MakesObject};

use crate::errors::{MakeErr, ObjErr};
use crate::faults::{last_fault, part_fault};
use crate::file_parts::parts_of;
use crate::heads::sound_headers;
use crate::making::broken_rule;
use crate::parts::Parts;
use std::alloc::Global;
use std::marker::Model;

/// An object: parts that break no rule.
#[derive(Drop, Debug)]
pub struct Object {
    parts: Parts,
}

impl Model for Object {
    ghost use Rattle.om_object.specs.declared.parts.Parts.{Parts};
    ghost use Rattle.om_object.specs.Rules.{IsObject};

    ghost Value = { Parts };

    ghost view = { λ o. o.parts };

    ghost invariant = { λ o. IsObject o.parts };
}

impl Object {
    /// The object of these parts, or the least rule that they break: 4 (a section has not as many bytes as its number
    /// and size say), 6 (a number is none of a loaded section or stands twice, an end is past 2^63, or two sections
    /// share an address), 8 (a name holds a zero byte, or a class is above 31), 9 to 17, 21 to 23, 25, 26 (65535
    /// relocations or more) or 29.
    pub fn make(alloc: Global, parts: Parts) -> Result<Object, MakeErr>
        ensures { MakesObject parts result }
    {
        if let Some(rule) = broken_rule(alloc, &parts)? {
            return Err(MakeErr::Rule { rule });
        }
        Ok(Object { parts })
    }

    /// The parts, which break no rule.
    pub fn parts(&self) -> &Parts
        ensures value { result.now ≡ self.now }
        ensures object { IsAnObject self.now }
    {
        &self.parts
    }
}

// The parts of a file that breaks no rule, or the least broken rule with its least place.
#[tactic(auto, using(crate::proofs::Chains::heads_fault))]
fn read_parts(alloc: Global, bytes: &[u8]) -> Result<Parts, ObjErr>
    ensures reads { ReadsParts bytes.now result }
    ensures object { IfOk result (λ parts. IsAnObject parts) }
{
    let headers = match sound_headers(alloc, bytes) {
        Ok(headers) => headers,
        Err(fault) => return Err(fault),
    };
    let heads = headers.sections.as_slice();
    if let Some((rule, at)) = om_symtab::first_fault(bytes, headers.sym_at) {
        return Err(ObjErr::Rule { rule, at });
    }
    let (parts, origins) = parts_of(alloc, bytes, heads)?;
    if let Some((rule, at)) = part_fault(alloc, &parts, &origins)? {
        return Err(ObjErr::Rule { rule, at });
    }
    if let Some((rule, at)) = last_fault(alloc, bytes, heads, &parts, &origins)? {
        return Err(ObjErr::Rule { rule, at });
    }
    Ok(parts)
}

/// The object in a file that breaks no rule, or the least broken rule with its least place, a byte offset in the file:
/// that of a section header, a symbol, a relocation entry or a text word, as the rule says.
///
/// The rules are 1 to 17, 21 to 26 and 29 of object files; a rule counts where no lesser one is broken. The fields are
/// those of the ECOFF object format. Takes time near-linear in the file, and memory for what the parts hold: where the
/// symbols' names, which may overlap in the file, have more than 268,435,456 bytes together, each with its zero, the
/// answer is `NoMemory` (see `om_symtab::read_symbols`).
pub fn read_object(alloc: Global, bytes: &[u8]) -> Result<Object, ObjErr>
    ensures { ReadsParts bytes.now result }
{
    let parts = read_parts(alloc, bytes)?;
    Ok(Object { parts })
}
