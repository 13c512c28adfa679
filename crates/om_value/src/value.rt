// Places, regions, targets and values.

/// A byte offset in the text of an object.
#[derive(Clone, Copy, PartialEq, Eq, PartialOrd, Ord, Debug)]
pub struct Place {
    /// The object's number, from 0.
    pub obj: u32,
    /// Bytes from the start of its text.
    pub off: u32,
}

/// What stands together in memory; how two regions lie to each other is nowhere said.
#[derive(Clone, Copy, PartialEq, Eq, PartialOrd, Ord, Debug)]
pub enum Region {
    /// A section of an object, other than its text and its address table.
    Sec {
        /// The object's number, from 0.
        obj: u32,
        /// The number of the section in Alpha ECOFF.
        number: u8,
    },
    /// A common, by the number of its name.
    Common {
        /// The name's number.
        sym: u32,
    },
    /// The stack.
    Stack,
    /// The heap, whose size a program changes.
    Heap,
}

/// What a slot of an address table, or an offset from its start, leads to.
#[derive(Clone, Copy, PartialEq, Eq, PartialOrd, Ord, Debug)]
pub enum Target {
    /// A number.
    Num(u64),
    /// A byte of a region.
    Ptr {
        /// The region.
        region: Region,
        /// Bytes from its start, modulo 2^64.
        off: u64,
    },
    /// A place in code.
    Code(Place),
}

/// What a register holds while no address is known.
#[derive(Clone, Copy, PartialEq, Eq, Debug)]
pub enum Value {
    /// A number.
    Num(u64),
    /// A pointer into a region.
    Ptr {
        /// The region.
        region: Region,
        /// Bytes from its start, modulo 2^64.
        off: u64,
    },
    /// A place in code.
    Code(Place),
    /// The global pointer of an object.
    Gp(u32),
    /// The high half of a global pointer, as an LDAH has made it.
    Half(
        /// The place of the LDAH.
        Place,
    ),
    /// How far a target lies from the global pointer of an object.
    GpOff {
        /// The object's number, from 0.
        obj: u32,
        /// The target.
        target: Target,
    },
}
