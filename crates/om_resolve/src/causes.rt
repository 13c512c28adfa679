// Why objects are no program.
use om_io::{Name, NoMemory};
use om_value::Place;
use std::alloc::AllocError;

/// What a limit is of.
#[derive(Clone, Copy, PartialEq, Eq, Debug)]
pub enum Which {
    /// How many objects there are: at most 256.
    Objects,
    /// The bytes of text of all objects: at most 16,777,216.
    Text,
    /// The bytes of text of one object: at most 4,194,304.
    ObjText,
    /// The bytes of all regions, each rounded up to a multiple of 8: at most 33,554,432.
    Data,
    /// The external symbols of all objects: at most 1,000,000.
    Symbols,
}

/// Why objects are no program: the first cause, in this order.
#[derive(Drop, Debug)]
pub enum ResolveErr {
    /// A name has two definitions.
    Duplicate {
        /// The first such name, in the order in which names are first seen.
        name: Name,
        /// The least number of an object that defines it.
        first: u32,
        /// The next; the same, where one object defines it twice.
        second: u32,
    },
    /// A name that is referenced, or `__start`, has no definition, or `__start` is not in a text.
    Unresolved {
        /// The first such name.
        name: Name,
        /// The first object that references it; for `__start` the object that defines it, or 0 where none does.
        file: u32,
    },
    /// An external target is not as rule 27 or 28 of object files asks.
    Rule {
        /// The first object with such a relocation.
        file: u32,
        /// Its least rule: 27 (a field whose target is in a text and no word; or a distance from the GP value whose target
        /// is a number, a pointer past its region's end, or no word) or 28 (a branch whose target is no word of a text).
        rule: u8,
        /// The least address of a relocation of that object that breaks it.
        at: u64,
    },
    /// A total is above its limit.
    Limit {
        /// What it is of.
        which: Which,
        /// The total; of `ObjText` that of the first object whose text is too long.
        total: u128,
    },
    /// A branch to a symbol does not reach it.
    TooFar {
        /// The first such branch, by object and offset.
        from: Place,
        /// How many words lie between the word after it and its target; negative where the target comes first.
        words: i64,
    },
    /// Memory ran out.
    NoMemory,
}

impl From<NoMemory> for ResolveErr {
    ghost use Rattle.std.specs.Prelude.{◌≡◌};
    ghost use Rattle.om_resolve.specs.declared.causes.ResolveErr.TheVariants.{NoMemory};

    ghost from_gives = { λ _ e. e ≡ NoMemory };

    fn from(_: NoMemory) -> Self {
        ResolveErr::NoMemory
    }
}

impl From<AllocError> for ResolveErr {
    ghost use Rattle.std.specs.Prelude.{◌≡◌};
    ghost use Rattle.om_resolve.specs.declared.causes.ResolveErr.TheVariants.{NoMemory};

    ghost from_gives = { λ _ e. e ≡ NoMemory };

    fn from(_: AllocError) -> Self {
        ResolveErr::NoMemory
    }
}
