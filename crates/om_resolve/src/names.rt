// Names in first-seen order, and what their symbols say.
ghost use Rattle.std.specs.Prelude.{◌≡◌, ◌<◌, ◌^◌, length, map, fold, OnOk, IfOk, max, Option, option_copied, slice_index_or};
ghost use Rattle.om_fields.specs.Places.{joined};
ghost use Rattle.om_symtab.specs.declared.symbol.ExtSym.{ExtSym as AnySym};
ghost use Rattle.om_resolve.specs.Names.{Seen, with_name, start_name, symbol_names, number_in, names_of, object_at, defined_by, seen_in};
ghost use Rattle.om_resolve.specs.Known.{note as noted_by, noted_at, noted, unknown, grown};
ghost use Rattle.om_resolve.specs.Linked.{names_in, lists_in, IsLinked};

use crate::aims::offset_by;
use crate::definition::{Definition, Known};
use crate::linked::{Linked, parts, section_in};
use crate::prefixes::text_starts;
use indexmap::IndexSet;
use om_io::NoMemory;
use om_object::{Object, Parts};
use om_symtab::{ExtSym, is_common, is_defining, section_of_class};
use std::alloc::Global;

/// The names of an object's symbols go behind those that are known.
fn add_names<'a>(names: &mut IndexSet<&'a [u8]>, p: &'a Parts) -> Result<(), NoMemory>
    ensures { OnOk result (names_in names.new ≡ fold with_name (names_in names.old) (symbol_names p.now)) }
{
    for y in p.symbols.as_slice() {
        names.insert_full(y.name.as_slice())?;
    }
    Ok(())
}

/// The names of all objects, `__start` first.
fn all_names<'a>(alloc: Global, objects: &'a [Object]) -> Result<IndexSet<&'a [u8]>, NoMemory>
    ensures { IfOk result (λ s. names_in s ≡ names_of objects.now) }
{
    let mut names = IndexSet::new(alloc);
    names.insert_full(b"__start".as_slice())?;
    for i in 0..objects.len() {
        add_names(&mut names, objects[i].parts())?;
    }
    Ok(names)
}

/// A number of a name. One that 32 bits do not hold is taken as want of memory.
fn small(k: usize) -> Result<u32, NoMemory>
    ensures { IfOk result (λ n. n ≡ k) }
{
    if k < 0x1_0000_0000 {
        return Ok(k as u32);
    }
    Err(NoMemory)
}

/// A name's number. One that 32 bits do not hold is taken as want of memory.
fn number(names: &IndexSet<&[u8]>, name: &[u8]) -> Result<u32, NoMemory>
    ensures { IfOk result (λ k. k ≡ number_in (names_in names.now) name.now) }
{
    match names.get_index_of(name) {
        None => small(names.len()),
        Some(k) => small(k),
    }
}

/// What a symbol defines, if its class is one that does.
fn defined(objects: &[Object], obj: u32, y: &ExtSym) -> Definition
    ensures { result ≡ defined_by objects.now (record { obj = obj; symbol = y.now }) }
{
    match section_of_class(y.class) {
        None => Definition::Absolute(y.value),
        Some(section) => {
            let off = offset_by(section_in(objects, obj, u32::from(section)), y.value);
            Definition::InSection { obj, section, off }
        }
    }
}

/// The larger of two sizes, of which the first may be missing.
fn larger(size: Option<u64>, other: u64) -> Option<u64>
    ensures { result ≡ grown size other }
{
    match size {
        None => Some(other),
        Some(x) => Some(x.max(other)),
    }
}

/// What the symbols of a name say together with one more of them.
fn note(known: Known, objects: &[Object], obj: u32, y: &ExtSym) -> Known
    ensures { result ≡ noted_by objects.now known (record { obj = obj; symbol = y.now }) }
{
    if is_defining(y.class) {
        if known.first.is_none() {
            return Known {
                first: Some(obj),
                defined: defined(objects, obj, y),
                ..known
            };
        }
        if known.second.is_none() {
            return Known {
                second: Some(obj),
                ..known
            };
        }
        return known;
    }
    if is_common(y.class) {
        return Known {
            common: larger(known.common, y.value),
            ..known
        };
    }
    known
}

/// Notes what a symbol says of the name of a number.
fn note_name(known: &mut Vec<Known>, number: u32, objects: &[Object], obj: u32, y: &ExtSym)
    ensures { known.new.items ≡ noted_at objects.now known.old.items number (record { obj = obj; symbol = y.now }) }
{
    let k = number as usize;
    if k < known.len() {
        known[k] = note(known[k], objects, obj, y);
    }
}

/// Notes what the symbols of an object say of their names. The numbers of these names.
fn note_symbols(
    alloc: Global,
    names: &IndexSet<&[u8]>,
    known: &mut Vec<Known>,
    objects: &[Object],
    obj: u32,
) -> Result<Vec<u32>, NoMemory>
    requires { obj < length objects.now }
    ensures numbers { IfOk result (λ v. v.items ≡ map (λ y. number_in (names_in names.now) y.name) (object_at objects.now obj).symbols) }
    ensures known { OnOk result (known.new.items ≡ fold (noted objects.now (names_in names.now)) known.old.items (seen_in obj (object_at objects.now obj))) }
{
    let symbols = parts(objects, obj).symbols.as_slice();
    let mut numbers = Vec::new(alloc);
    for j in 0..symbols.len() {
        let y = &symbols[j];
        let k = number(names, y.name.as_slice())?;
        numbers.push(k)?;
        note_name(known, k, objects, obj, y);
    }
    Ok(numbers)
}

/// Notes what the symbols of all objects say of their names. The numbers of these names.
fn note_objects(
    alloc: Global,
    names: &IndexSet<&[u8]>,
    known: &mut Vec<Known>,
    objects: &[Object],
) -> Result<Vec<Vec<u32>>, NoMemory>
    requires { length objects.now < 2 ^ 32 }
    ensures numbers { IfOk result (λ v. lists_in v.items ≡ map (λ p. map (λ y. number_in (names_in names.now) y.name) p.symbols) objects.now) }
    ensures known { OnOk result (known.new.items ≡ fold (noted objects.now (names_in names.now)) known.old.items (joined (λ i. seen_in i (object_at objects.now i)) (length objects.now))) }
{
    let mut numbers = Vec::new(alloc);
    for i in 0..objects.len() {
        numbers.push(note_symbols(alloc, names, known, objects, i as u32)?)?;
    }
    Ok(numbers)
}

/// The objects with their names.
pub(crate) fn link<'a>(alloc: Global, objects: &'a [Object]) -> Result<Linked<'a>, NoMemory>
    requires { length objects.now < 2 ^ 32 }
    ensures linked { IfOk result IsLinked }
    ensures objects { IfOk result (λ l. l.objects.now ≡ objects.now) }
{
    let names = all_names(alloc, objects)?;
    if names.len() >= 0x1_0000_0000 {
        return Err(NoMemory);
    }
    let nothing = Known {
        first: None,
        second: None,
        defined: Definition::Missing,
        common: None,
    };
    let mut known = vec![in alloc; nothing; names.len()]?;
    let numbers = note_objects(alloc, &names, &mut known, objects)?;
    let (starts, words) = text_starts(alloc, objects)?;
    Ok(Linked {
        objects,
        names,
        numbers,
        known,
        starts,
        words,
    })
}
