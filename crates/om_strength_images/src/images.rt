// Callers of the reader and the writer of images.
ghost use Rattle.std.specs.Prelude.{◌≡◌, IfOk};
ghost use Rattle.om_image.specs.Answers.{ReadsImage};
ghost use Rattle.om_image.specs.Valid.{IsValidImage};
ghost use Rattle.om_image.specs.Written.{file_of};

use om_image::{Image, ImageErr, read_image, write_image};
use om_io::{Bytes, NoMemory};
use std::alloc::Global;

pub fn image(alloc: Global, bytes: &[u8]) -> Result<Image, ImageErr>
    ensures { ReadsImage bytes.now result }
{
    read_image(alloc, bytes)
}

pub fn image_file(alloc: Global, i: &Image) -> Result<Bytes, NoMemory>
    requires { IsValidImage i.now }
    ensures { IfOk result (λ file. file ≡ file_of i.now) }
{
    write_image(alloc, i)
}
