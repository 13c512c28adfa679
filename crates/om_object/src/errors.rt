// Why a file or parts are refused.
use om_io::NoMemory;
use thiserror::Error;

/// Why a file or parts are refused.
#[derive(Debug, Drop, Error)]
pub enum ObjErr {
    /// The rule of object files with this number is broken at this place, a byte offset in the file.
    #[error("rule {rule} at {at}")]
    Rule { rule: u8, at: u64 },
    /// Memory ran out.
    #[error("no memory")]
    NoMemory,
}

impl From<NoMemory> for ObjErr {
    ghost use Rattle.std.specs.Prelude.{◌≡◌};
    ghost use Rattle.om_object.specs.declared.errors.ObjErr.TheVariants.{NoMemory};

    ghost from_gives = { λ _ e. e ≡ NoMemory };

    fn from(_: NoMemory) -> Self {
        ObjErr::NoMemory
    }
}

/// Why parts are no object.
#[derive(Debug, Drop, Error)]
pub enum MakeErr {
    /// The rule of objects with this number is broken.
    #[error("rule {rule}")]
    Rule { rule: u8 },
    /// Memory ran out.
    #[error("no memory")]
    NoMemory,
}

impl From<NoMemory> for MakeErr {
    ghost use Rattle.std.specs.Prelude.{◌≡◌};
    ghost use Rattle.om_object.specs.declared.errors.MakeErr.TheVariants.{NoMemory};

    ghost from_gives = { λ _ e. e ≡ NoMemory };

    fn from(_: NoMemory) -> Self {
        MakeErr::NoMemory
    }
}
