// Words with what they stand for, and initial fields.
use om_isa::Instr;
use om_value::{Place, Target, Value};

/// What a word stands for beside its instruction: how an object file's relocations speak of it.
#[derive(Clone, Copy, PartialEq, Eq, Debug)]
pub enum Role {
    /// Its instruction alone.
    Plain,
    /// An LDQ that loads an address: the target of its slot in the object's address table.
    Lit(Target),
    /// The LDAH of a pair that sets the global pointer from a place that a register holds.
    GpHi {
        /// The place.
        base: Place,
    },
    /// The LDA of such a pair.
    GpLo {
        /// The place of its LDAH.
        hi: Place,
    },
    /// A branch, by the place that it goes to.
    To(Place),
}

/// A word of a text.
#[derive(Clone, Copy, PartialEq, Eq, Debug)]
pub struct Item {
    /// The word as it stands in the object.
    pub word: u32,
    /// Its instruction.
    pub instr: Instr,
    /// What it stands for.
    pub role: Role,
}

/// An initial field of a region: where a value stands, of which the address is not yet known.
#[derive(Clone, Copy, PartialEq, Eq, Debug)]
pub struct Field {
    /// Bytes from the start of its region.
    pub off: u64,
    /// How many bytes it takes: 4 for a distance from a global pointer, else 8.
    pub width: u8,
    /// The value.
    pub value: Value,
}
