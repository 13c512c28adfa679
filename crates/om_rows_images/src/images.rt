// Files of images: what is read of them, and what is written again.
use crate::causes::Bad;
use crate::holding::part_text;
use om_image::{ImageErr, read_image, write_image};
use om_rows::text_of;
use std::alloc::Global;

/// What is said of an image that was refused.
pub fn refusal(alloc: Global, e: ImageErr) -> Result<String, Bad> {
    match e {
        ImageErr::Rule { rule, at } => Ok(format!(in alloc; "rule {rule} at {at}")?),
        ImageErr::NoMemory => Err(Bad::NoMemory),
    }
}

/// `image FILE`: whether the file is read, or the rule that it breaks with its place.
pub fn read(alloc: Global, file: &[u8]) -> Result<String, Bad> {
    match read_image(alloc, file) {
        Ok(_) => Ok(String::from_str(alloc, "read")?),
        Err(e) => refusal(alloc, e),
    }
}

/// `holds PART FILE`: a part of the image in the file.
pub fn hold(alloc: Global, part: &str, file: &[u8]) -> Result<String, Bad> {
    match read_image(alloc, file) {
        Ok(image) => part_text(alloc, &image, part),
        Err(e) => refusal(alloc, e),
    }
}

/// `write FILE`: `the same` where the image in the file is written as that file, or else the bytes that are written.
pub fn write_again(alloc: Global, file: &[u8]) -> Result<String, Bad> {
    let image = match read_image(alloc, file) {
        Ok(image) => image,
        Err(e) => return refusal(alloc, e),
    };
    let again = write_image(alloc, &image)?;
    if again.as_slice() == file {
        return Ok(String::from_str(alloc, "the same")?);
    }
    Ok(text_of(alloc, again.as_slice())?)
}
