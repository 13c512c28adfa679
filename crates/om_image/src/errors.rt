// Why a file is no image.
use om_io::NoMemory;
use thiserror::Error;

/// Why the file of an image is refused.
#[derive(Debug, Drop, Error)]
pub enum ImageErr {
    /// The rule of images with this number is broken at this place, a byte offset in the file.
    #[error("image rule {rule} at {at}")]
    Rule { rule: u8, at: u64 },
    /// Memory was wanting. It says nothing of the file.
    #[error("no memory")]
    NoMemory,
}

impl From<NoMemory> for ImageErr {
    ghost use Rattle.std.specs.Prelude.{◌≡◌};
    ghost use Rattle.om_image.specs.declared.errors.ImageErr.TheVariants.{NoMemory};

    ghost from_gives = { λ _ e. e ≡ NoMemory };

    fn from(_: NoMemory) -> Self {
        ImageErr::NoMemory
    }
}
