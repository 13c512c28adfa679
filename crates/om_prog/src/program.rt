// The program that a linker works on.
ghost use Rattle.std.specs.Prelude.{◌≡◌, length};
ghost use Rattle.om_prog.specs.View.{item_at, items_lists, word_count};
ghost use Rattle.om_prog.specs.Made.{MakesProgram};
ghost use Rattle.om_prog.specs.Valid.{IsProgram as IsAProgram};

use crate::errors::ProgErr;
use crate::item::Item;
use crate::making::is_program;
use crate::region::RegionInit;
use crate::words::word_at;
use om_value::Place;
use std::alloc::Global;
use std::marker::Model;

/// A program: the words of its objects, its regions, and the place where it starts.
#[derive(Drop, Debug)]
pub struct Program {
    texts: Vec<Vec<Item>>,
    regions: Vec<RegionInit>,
    entry: Place,
}

impl Model for Program {
    ghost use Rattle.om_prog.specs.View.{ProgramView, items_lists};
    ghost use Rattle.om_prog.specs.Valid.{IsProgram};

    ghost Value = { ProgramView };

    ghost view = { λ p. record { texts = items_lists p.texts.items; regions = p.regions.items; entry = p.entry } };

    ghost invariant = { λ p. IsProgram (record { texts = items_lists p.texts.items; regions = p.regions.items; entry = p.entry }) };
}

impl Program {
    /// The program of these texts, regions and entry, where object i has text i and starts at `entry`; or `Bad` exactly
    /// where they are none, which is where one of these holds.
    ///
    /// - There are 2^32 texts or more, a text has 2^30 words or more, or its address loads name more than 8192 targets.
    /// - The entry, the place that a branch goes to, a place in code that a target or value names, or the base of a pair
    ///   is no word.
    /// - An item's instruction is not that of its word.
    /// - `Lit` stands on no LDQ, `GpHi` on no LDAH, `GpLo` on no LDA, `To` on no branch, or a branch has another role.
    /// - A `GpLo` names no `GpHi` of its object, or a `GpHi` is not named by exactly one `GpLo`.
    /// - A region is given twice, or is the stack or the heap; a region that a target or value names is not given; a
    ///   size is no multiple of 8; a region has more bytes than its size; or one that is `zero` has bytes or a field.
    /// - A field's value is a `Gp` or a `Half`; its width is not 4 for a `GpOff` and 8 for any other value; its offset is
    ///   no multiple of its width; it reaches past its region; or two fields share a byte.
    /// - A `GpOff` is of no object, or its target is a number or a pointer past the end of its region.
    ///
    /// Takes time near-linear in the words and fields, and memory for what is noted on the way.
    pub fn make(
        alloc: Global,
        texts: Vec<Vec<Item>>,
        regions: Vec<RegionInit>,
        entry: Place,
    ) -> Result<Program, ProgErr>
        ensures { MakesProgram (record { texts = items_lists texts.items; regions = regions.items; entry = entry }) result }
    {
        if !is_program(alloc, &texts, &regions, entry)? {
            return Err(ProgErr::Bad);
        }
        Ok(Program {
            texts,
            regions,
            entry,
        })
    }

    /// How many objects it has, fewer than 2^32. Objects are numbered from 0.
    pub fn objects(&self) -> u32
        ensures value { result ≡ length self.now.texts }
        ensures program { IsAProgram self.now }
    {
        self.texts.len() as u32
    }

    /// How many words the text of an object has, fewer than 2^30; 0 where there is no such object.
    pub fn words(&self, obj: u32) -> u32
        ensures { result ≡ word_count self.now obj }
    {
        match self.texts.get(obj as usize) {
            Some(text) => text.len() as u32,
            None => 0,
        }
    }

    /// The word at a place, or `None` exactly where the place is no word: there is no such object, its text is not
    /// so long, or the offset is no multiple of 4.
    pub fn item(&self, p: Place) -> Option<Item>
        ensures { result ≡ item_at self.now p }
    {
        word_at(&self.texts, p)
    }

    /// Its regions with their initial content, each once, without the stack and the heap.
    pub fn regions(&self) -> &[RegionInit]
        ensures value { result.now ≡ self.now.regions }
        ensures program { IsAProgram self.now }
    {
        self.regions.as_slice()
    }

    /// Where it starts.
    pub fn entry(&self) -> Place
        ensures { result ≡ self.now.entry }
    {
        self.entry
    }
}
