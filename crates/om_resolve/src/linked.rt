// Objects with what their names stand for.
ghost use Rattle.std.specs.Prelude.{◌≡◌, ◌<◌, ◌^◌, length, option_copied};
ghost use Rattle.om_object.specs.Words.{section_of, is_word};
ghost use Rattle.om_resolve.specs.Names.{object_at, meaning_of};
ghost use Rattle.om_resolve.specs.Known.{definition_by};
ghost use Rattle.om_resolve.specs.Linked.{IsLinked, known_at, number_at as number_by, meaning_at, definer_by, start_at};

use crate::definition::{Definition, Known};
use indexmap::IndexSet;
use om_object::words::section;
use om_object::{Object, Parts, Section};

/// Objects with their names.
#[derive(Drop)]
pub(crate) struct Linked<'a> {
    pub objects: &'a [Object],
    /// The names in first-seen order, `__start` first.
    pub names: IndexSet<&'a [u8]>,
    /// The number of the name of each symbol, object by object.
    pub numbers: Vec<Vec<u32>>,
    /// What the symbols of each name say, by the name's number.
    pub known: Vec<Known>,
    /// How many words of text stand in the objects before each.
    pub starts: Vec<u32>,
    /// How many stand in all.
    pub words: u32,
}

/// The parts of an object.
pub(crate) fn parts(objects: &[Object], obj: u32) -> &Parts
    requires { obj < length objects.now }
    ensures { result.now ≡ object_at objects.now obj }
{
    objects[obj as usize].parts()
}

/// The section of a number of an object.
pub(crate) fn section_in(objects: &[Object], obj: u32, number: u32) -> Option<&Section>
    ensures { option_copied result ≡ section_of (object_at objects.now obj) number }
{
    match objects.get(obj as usize) {
        None => None,
        Some(o) => section(o.parts(), number),
    }
}

/// Whether an offset is that of a word of an object's text.
pub(crate) fn holds_word(objects: &[Object], obj: u32, off: u64) -> bool
    ensures { result ≡ is_word (object_at objects.now obj) off }
{
    match section_in(objects, obj, 1) {
        None => false,
        Some(t) => off % 4 == 0 && off < t.size,
    }
}

/// What a name stands for by what its symbols say.
pub(crate) fn definition_of_known(number: u32, known: Option<Known>) -> Definition
    ensures { result ≡ definition_by number known }
{
    match known {
        None => Definition::Missing,
        Some(known) => match known.first {
            Some(_) => known.defined,
            None => match known.common {
                Some(size) => Definition::AsCommon { sym: number, size },
                None => Definition::Missing,
            },
        },
    }
}

impl<'a> Linked<'a> {
    /// The number of the name of an object's symbol, if there is such a symbol.
    pub(crate) fn number(&self, obj: u32, index: u32) -> Option<u32>
        ensures { result ≡ number_by self.now obj index }
    {
        match self.numbers.get(obj as usize) {
            None => None,
            Some(numbers) => numbers.get(index as usize).copied(),
        }
    }

    /// The first object that defines the name of a number, or 0.
    pub(crate) fn definer(&self, number: u32) -> u32
        ensures { result ≡ definer_by (known_at self.now number) }
    {
        match self.known.get(number as usize) {
            None => 0,
            Some(known) => known.first.unwrap_or(0),
        }
    }

    /// How many words stand in the objects before one.
    pub(crate) fn start(&self, obj: u32) -> u32
        ensures { result ≡ start_at self.now obj }
    {
        match self.starts.get(obj as usize) {
            None => self.words,
            Some(start) => *start,
        }
    }

    /// What the name of a number stands for.
    pub(crate) fn definition(&self, number: u32) -> Definition
        ensures { result ≡ definition_by number (known_at self.now number) }
    {
        definition_of_known(number, self.known.get(number as usize).copied())
    }

    /// What an object's symbol stands for.
    pub(crate) fn meaning(&self, obj: u32, index: u32) -> Definition
        ensures { result ≡ meaning_at self.now obj index }
    {
        match self.number(obj, index) {
            None => Definition::Missing,
            Some(number) => self.definition(number),
        }
    }
}
