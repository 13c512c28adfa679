//! Values under keys of 32 bits, in one slab.
ghost use Rattle.std.specs.Prelude.{◌≡◌, ◌+◌, ◌<◌, ◌≤◌, [], map, Some, None, is_some, IsSome, IsTrue, IsFalse, OnOk, slice_set};
ghost use Rattle.std.specs.Borrow.{Lends, sem};
ghost use Rattle.slab.specs.Slab.{HasRoomFor as HasSlabRoomFor};
ghost use Rattle.om_arena.specs.Keyed.{key_count, get, live_count, HasRoomFor, Updates};
ghost use Rattle.om_arena.specs.Narrow.{held, IsNarrow, HasNarrowRoom, SameFound};

use crate::causes::NoMemory;
use slab::Slab;
use std::alloc::Global;
use std::marker::Model;

// How many keys there are, and how many lists.
pub(crate) const KEYS: usize = u32::MAX as usize;

// What stands under a key of the slab: a value, or none for ever, since the key has more than 32 bits.
#[derive(Drop)]
enum Slot<X> {
    Barred,
    Held(X),
}

// Values under their keys. A key keeps its value until that value is removed.
#[derive(Drop)]
pub(crate) struct Slots<X> {
    slab: Slab<Slot<X>>,
}

impl<X> Model for Slots<X> {
    ghost use Rattle.std.specs.Prelude.{map, min};
    ghost use Rattle.om_arena.specs.Keyed.{Keyed, keyed_code, key_count};

    ghost Value = { Keyed X };

    ghost coded = { keyed_code X.code };

    ghost use Rattle.om_arena.specs.Narrow.{found, IsNarrow};

    ghost view = { λ s. record {
      slots = map found s.slab.slots;
      capacity = min s.slab.capacity key_count;
    } };

    ghost invariant = { λ s. IsNarrow s.slab.slots };
}

impl<X> Slot<X> {
    ghost use Rattle.om_arena.specs.contracts.slots.Slot.{the_row};

    fn value_mut(&mut self) -> &mut X
        requires { IsSome (held self.old) }
        ensures* lends { sem 𝓛 (Lends (the_row X.row) X.row self.entry result Slot.Held) }
        ensures value { held self.old ≡ Some result.now }
    {
        match self {
            Slot::Held(value) => value,
            Slot::Barred => unreachable!(),
        }
    }
}

// Whether there is room and the next key has more than 32 bits.
fn is_next_wide<X>(slab: &Slab<Slot<X>>) -> bool
    requires narrow { IsNarrow slab.now.slots }
    requires room { HasNarrowRoom slab.now }
    ensures room { HasSlabRoomFor slab.now 1 }
    ensures fits { IsFalse result → slab.now.vacant_key < key_count }
    ensures wide { IsTrue result → key_count ≤ slab.now.vacant_key }
{
    slab.len() < slab.capacity() && slab.vacant_key() >= KEYS
}

// Bars keys of more than 32 bits until the next one has no more. The slab gives out low keys first, so there
// are none; but its contract bounds a key by the capacity alone.
fn bar_wide_keys<X>(slab: &mut Slab<Slot<X>>)
    requires narrow { IsNarrow slab.old.slots }
    requires room { HasNarrowRoom slab.old }
    ensures narrow { IsNarrow slab.new.slots }
    ensures room { HasSlabRoomFor slab.new 1 }
    ensures fits { slab.new.vacant_key < key_count }
    ensures capacity { slab.new.capacity ≡ slab.old.capacity }
    ensures same { SameFound slab.old.slots slab.new.slots }
{
    while is_next_wide(slab) {
        slab.insert_reserved(Slot::Barred);
    }
}

impl<X> Slots<X> {
    ghost use Rattle.om_arena.specs.LendsSlot.{lends_slot};

    // No values, and no memory.
    pub(crate) fn new(alloc: Global) -> Slots<X>
        ensures slots { result.slots ≡ [] }
        ensures capacity { result.capacity ≡ 0 }
    {
        Slots {
            slab: Slab::new(alloc),
        }
    }

    // Makes room for `n` insertions that need no memory.
    pub(crate) fn reserve(&mut self, n: u64) -> Result<(), NoMemory>
        ensures room { OnOk result (HasRoomFor self.new n) }
        ensures slots { self.new.slots ≡ self.old.slots }
        ensures capacity { self.old.capacity ≤ self.new.capacity }
    {
        let most = KEYS as u64;
        if n > most || self.slab.len() as u64 > most - n {
            return Err(NoMemory);
        }
        match self.slab.reserve(n as usize) {
            Ok(()) => Ok(()),
            Err(_) => Err(NoMemory),
        }
    }

    // Stores `value` in a vacant slot.
    pub(crate) fn insert(&mut self, value: X) -> u32
        requires { HasRoomFor self.old 1 }
        ensures key { result < key_count }
        ensures was_vacant { get self.old result ≡ None }
        ensures updates { Updates self.old self.new result (Some value) }
        ensures capacity { self.new.capacity ≡ self.old.capacity }
        ensures count { live_count self.new ≡ live_count self.old + 1 }
    {
        bar_wide_keys(&mut self.slab);
        self.slab.insert_reserved(Slot::Held(value)) as u32
    }

    // Takes the value under `key` out. Its slot is vacant again.
    pub(crate) fn remove(&mut self, key: u32) -> X
        requires { IsSome (get self.old key) }
        ensures value { get self.old key ≡ Some result }
        ensures slots { self.new.slots ≡ slice_set self.old.slots key None }
        ensures capacity { self.new.capacity ≡ self.old.capacity }
        ensures count { live_count self.new + 1 ≡ live_count self.old }
    {
        match self.slab.remove(key as usize) {
            Slot::Held(value) => value,
            Slot::Barred => unreachable!(),
        }
    }

    // The value under `key`.
    pub(crate) fn get(&self, key: u32) -> &X
        requires { IsSome (get self.now key) }
        ensures key { key < key_count }
        ensures value { get self.now key ≡ Some result.now }
    {
        match &self.slab[key as usize] {
            Slot::Held(value) => value,
            Slot::Barred => unreachable!(),
        }
    }

    // The value under `key`, for writing.
    pub(crate) fn get_mut(&mut self, key: u32) -> &mut X
        requires { IsSome (get self.old key) }
        ensures* writes_back { sem 𝓛 (lends_slot X.row self.entry key result) }
        ensures value { get self.old key ≡ Some result.now }
    {
        self.slab[key as usize].value_mut()
    }
}
