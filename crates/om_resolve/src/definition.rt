// What names stand for.

/// What a name, or a symbol, stands for in the program.
#[derive(Clone, Copy, PartialEq, Eq, Debug)]
pub(crate) enum Definition {
    /// Nothing defines it.
    Missing,
    /// A number.
    Absolute(u64),
    /// A byte of a section.
    InSection {
        /// The object's number.
        obj: u32,
        /// The section's number.
        section: u8,
        /// Bytes from the section's start, modulo 2^64.
        off: u64,
    },
    /// A region of its own.
    AsCommon {
        /// The name's number.
        sym: u32,
        /// Its size in bytes, not rounded.
        size: u64,
    },
}

/// What the symbols of a name say together.
#[derive(Clone, Copy, PartialEq, Eq, Debug)]
pub(crate) struct Known {
    /// The object of the first symbol that defines it.
    pub first: Option<u32>,
    /// That of the second.
    pub second: Option<u32>,
    /// What the first defines; `Missing` where none does.
    pub defined: Definition,
    /// The largest size of its commons.
    pub common: Option<u64>,
}
