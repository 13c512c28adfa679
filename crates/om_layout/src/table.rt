//! Global address tables and regions, placed.
ghost use Rattle.std.specs.Prelude.{◌≡◌, ◌<◌, ◌^◌, length};
ghost use Rattle.om_layout.specs.Layout.{slot_address};

use crate::slot_set::Slots;
use om_value::{Region, Target};
use std::marker::Model;

/// A global address table.
#[derive(Drop)]
pub struct Table {
    start: u64,
    slots: Slots,
}

impl Model for Table {
    ghost use Rattle.std.specs.Prelude.{◌<◌, ◌^◌, length};
    ghost use Rattle.om_layout.specs.Layout.{TableAt};

    ghost Value = { TableAt };

    ghost view = { λ t. record { start = t.start; slots = t.slots } };

    ghost invariant = { λ t. (t.start < 2 ^ 48) × (length t.slots < 2 ^ 32) };
}

impl Table {
    // A table of these slots at an address.
    pub(crate) fn new(start: u64, slots: Slots) -> Table
        requires start { start < 2 ^ 48 }
        requires slots { length slots < 2 ^ 32 }
        ensures { result ≡ record { start = start; slots = slots } }
    {
        Table { start, slots }
    }

    /// Its address, below 2^48.
    pub fn start(&self) -> u64
        ensures value { result ≡ self.now.start }
        ensures range { result < 2 ^ 48 }
    {
        self.start
    }

    /// The targets of its slots, in order. A slot has 8 bytes.
    pub fn slots(&self) -> &[Target]
        ensures value { result.now ≡ self.now.slots }
        ensures few { length self.now.slots < 2 ^ 32 }
    {
        self.slots.targets()
    }

    /// The address of the slot of a target. None comes exactly where the table has none.
    pub fn slot(&self, t: Target) -> Option<u64>
        ensures { result ≡ slot_address t self.now }
    {
        match self.slots.number(t) {
            Some(number) => Some(self.start + 8 * number),
            None => None,
        }
    }
}

/// A region with its address and size.
#[derive(Clone, Copy)]
pub struct Placed {
    region: Region,
    address: u64,
    size: u64,
}

impl Model for Placed {
    ghost use Rattle.om_layout.specs.Layout.{RegionAt};

    ghost Value = { RegionAt };

    ghost view = { λ r. record { region = r.region; address = r.address; size = r.size } };

    ghost inverse = { λ e. record { region = e.region; address = e.address; size = e.size } };
}

impl Placed {
    // A region of a size at an address.
    pub(crate) fn new(region: Region, address: u64, size: u64) -> Placed
        ensures { result ≡ record { region = region; address = address; size = size } }
    {
        Placed {
            region,
            address,
            size,
        }
    }

    /// The region.
    pub fn region(&self) -> Region
        ensures { result ≡ self.now.region }
    {
        self.region
    }

    /// The address of its first byte.
    pub fn address(&self) -> u64
        ensures { result ≡ self.now.address }
    {
        self.address
    }

    /// Its size in bytes.
    pub fn size(&self) -> u64
        ensures { result ≡ self.now.size }
    {
        self.size
    }
}
