// The files that were saved into a store in memory: one piece of memory for all of them.
ghost use Rattle.std.specs.Prelude.{◌≡◌, ◌<◌, ◌≤◌, ◌+◌, ◌-◌, [], ◌∷◌, length, IfOk, IsOk, IsErr, OnOk, OnErr, option_copied, vec_len, vec_capacity};
ghost use Rattle.om_io.specs.SavedFiles.{AreWithin, Kept, files_at, first_of};

use crate::places::Place;
use crate::{Failed, NoMemory};
use std::alloc::Global;
use std::marker::Model;

/// The most files that may be saved.
pub const MOST_SAVES: usize = 8;

/// Names and bytes one behind the other, and their places, the newest first.
#[derive(Drop)]
pub struct Saves {
    kept: Vec<u8>,
    places: Vec<Place>,
    room: usize,
}

impl Model for Saves {
    ghost use Rattle.std.specs.Prelude.{◌-◌, ◌≤◌, vec_len, vec_capacity};
    ghost use Rattle.om_io.specs.SavedFiles.{AreWithin, Kept, files_at};

    ghost Value = { Kept };

    ghost view = { λ s. record { files = files_at s.kept.items s.places.items; left = s.room - vec_len s.kept } };

    ghost invariant = { λ s. AreWithin (vec_len s.kept) s.places.items × (vec_len s.kept ≤ s.room)
        × (s.room ≤ vec_capacity s.kept) × (8 ≤ vec_capacity s.places) };
}

// The bytes of the newest file of this name.
fn find<'a>(kept: &'a [u8], places: &[Place], name: &[u8]) -> Option<&'a [u8]>
    requires { AreWithin (length kept.now) places.now }
    ensures { option_copied result ≡ first_of (files_at kept.now places.now) name.now }
{
    for place in places {
        if &kept[..place.bytes_at][place.name_at..] == name {
            return Some(&kept[..place.end][place.bytes_at..]);
        }
    }
    None
}

// Keeps a file behind the others, in memory that is reserved.
fn append(kept: &mut Vec<u8>, places: &mut Vec<Place>, name: &[u8], bytes: &[u8])
    requires within { AreWithin (vec_len kept.old) places.old.items }
    requires room { vec_len kept.old + (length name.now + length bytes.now) ≤ vec_capacity kept.old }
    requires place { vec_len places.old < vec_capacity places.old }
    ensures files { files_at kept.new.items places.new.items
        ≡ (name.now, bytes.now) ∷ files_at kept.old.items places.old.items }
    ensures used { vec_len kept.new ≡ vec_len kept.old + (length name.now + length bytes.now) }
    ensures within { AreWithin (vec_len kept.new) places.new.items }
    ensures kept { vec_capacity kept.old ≤ vec_capacity kept.new }
    ensures places { vec_capacity places.old ≤ vec_capacity places.new }
{
    let name_at = kept.len();
    let Ok(()) = kept.extend_from_slice(name) else {
        unreachable!()
    };
    let bytes_at = kept.len();
    let Ok(()) = kept.extend_from_slice(bytes) else {
        unreachable!()
    };
    let place = Place {
        name_at,
        bytes_at,
        end: kept.len(),
    };
    let Ok(()) = places.insert(0, place) else {
        unreachable!()
    };
}

impl Saves {
    /// Nothing saved, and room for so many bytes in all, with places for eight saves.
    pub fn new(alloc: Global, room: u64) -> Result<Saves, NoMemory>
        ensures { IfOk result (λ s. s ≡ record { files = []; left = room }) }
    {
        let room = room as usize;
        Ok(Saves {
            kept: Vec::with_capacity(alloc, room)?,
            places: Vec::with_capacity(alloc, MOST_SAVES)?,
            room,
        })
    }

    /// What was saved last under this name.
    pub fn find(&self, name: &[u8]) -> Option<&[u8]>
        ensures { option_copied result ≡ first_of self.now.files name.now }
    {
        find(&self.kept, &self.places, name)
    }

    /// Keeps a file. What does not fit into the room is refused, and so is a ninth save.
    pub fn save(&mut self, name: &[u8], bytes: &[u8]) -> Result<(), Failed>
        ensures ok { OnOk result (self.new ≡ record {
          files = (name.now, bytes.now) ∷ self.old.files;
          left = self.old.left - (length name.now + length bytes.now);
        }) }
        ensures err { OnErr result (self.new ≡ self.old) }
        ensures fits { length self.old.files < 8 → length name.now + length bytes.now ≤ self.old.left → IsOk result }
        ensures full { 8 ≤ length self.old.files → IsErr result }
        ensures long { self.old.left < length name.now + length bytes.now → IsErr result }
    {
        let left = self.room - self.kept.len();
        if self.places.len() >= MOST_SAVES {
            return Err(Failed);
        }
        if name.len() > left {
            return Err(Failed);
        }
        if bytes.len() > left - name.len() {
            return Err(Failed);
        }
        append(&mut self.kept, &mut self.places, name, bytes);
        Ok(())
    }
}
