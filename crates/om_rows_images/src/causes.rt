// Why a row has no answer.
use om_io::NoMemory;
use std::alloc::{AllocError, AllocFailed};

/// Why a row has no answer.
#[derive(Debug, Drop)]
pub enum Bad {
    /// It is not of the form that its kind has.
    Text,
    /// Memory ran out.
    NoMemory,
}

impl From<om_rows::Bad> for Bad {
    fn from(e: om_rows::Bad) -> Bad {
        match e {
            om_rows::Bad::Text => Bad::Text,
            om_rows::Bad::NoMemory => Bad::NoMemory,
        }
    }
}

impl From<AllocError> for Bad {
    fn from(_: AllocError) -> Bad {
        Bad::NoMemory
    }
}

impl<T: Drop> From<AllocFailed<T>> for Bad {
    fn from(_: AllocFailed<T>) -> Bad {
        Bad::NoMemory
    }
}

impl From<NoMemory> for Bad {
    fn from(_: NoMemory) -> Bad {
        Bad::NoMemory
    }
}
