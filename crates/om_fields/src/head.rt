// What the headers of an object file hold: fields of the ECOFF object format for Alpha.
use om_io::{Listed, Name, NoMemory};
use std::alloc::{AllocError, AllocFailed};
use thiserror::Error;

/// A section header of an ECOFF object file: those of its fields that linking needs. Nothing is said of their values: each
/// may be any number of its type.
#[derive(Drop, Debug)]
pub struct SecHead {
    /// The section's name, as its 8 bytes stand in the header: a short name with zeros behind it.
    pub name: Name,
    /// The address of the section's first byte.
    pub addr: u64,
    /// The section's size in bytes.
    pub size: u64,
    /// The byte offset in the file of the section's bytes. `.sbss` and `.bss` have none there.
    pub bytes_at: u64,
    /// The byte offset in the file of the section's relocation entries, of 16 bytes each.
    pub relocs_at: u64,
    /// How many relocation entries there are; 65535 stands for more.
    pub relocs: u16,
}

/// The headers of an ECOFF object file: the file header, the optional header and the section headers.
#[derive(Drop, Debug)]
pub struct Headers {
    /// The GP value, from which the file's code measures addresses.
    pub gp: u64,
    /// The byte offset in the file of the symbolic header; 0 where there is none.
    pub sym_at: u64,
    /// The section headers, of loaded sections and of others, in their order in the file.
    pub sections: Listed<SecHead>,
}

/// Why a reader of a file's headers, symbols or relocation entries gives none.
#[derive(Debug, Drop, Error)]
pub enum FieldErr {
    /// The least of that reader's rules that the file breaks, and the least place where it breaks it: a byte offset in
    /// the file.
    #[error("rule {rule} at {at}")]
    Rule { rule: u8, at: u64 },
    /// Memory was wanting. It says nothing of the file.
    #[error("no memory")]
    NoMemory,
}

impl From<NoMemory> for FieldErr {
    ghost use Rattle.std.specs.Prelude.{◌≡◌};
    ghost use Rattle.om_fields.specs.declared.head.FieldErr.TheVariants.{NoMemory};

    ghost from_gives = { λ _ e. e ≡ NoMemory };

    fn from(_: NoMemory) -> Self {
        FieldErr::NoMemory
    }
}

impl From<AllocError> for FieldErr {
    ghost use Rattle.std.specs.Prelude.{◌≡◌};
    ghost use Rattle.om_fields.specs.declared.head.FieldErr.TheVariants.{NoMemory};

    ghost from_gives = { λ _ e. e ≡ NoMemory };

    fn from(_: AllocError) -> Self {
        FieldErr::NoMemory
    }
}

impl<T: Drop> From<AllocFailed<T>> for FieldErr {
    ghost use Rattle.std.specs.Prelude.{◌≡◌};
    ghost use Rattle.om_fields.specs.declared.head.FieldErr.TheVariants.{NoMemory};

    ghost from_gives = { λ _ e. e ≡ NoMemory };

    fn from(_: AllocFailed<T>) -> Self {
        FieldErr::NoMemory
    }
}
