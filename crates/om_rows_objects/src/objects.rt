// Rows on whole objects.
use crate::files::file_of;
use crate::parts::{parts_of, parts_text};
use crate::sizes::is_small;
use om_io::{Bytes, NoMemory};
use om_object::{Object, read_object};
use om_objwrite::write_object;
use om_rows::Bad;
use std::alloc::Global;

/// `object FILE`: the object in a file, or the broken rule.
pub fn object(rt: &HostRuntime, alloc: Global, input: &str) -> Result<String, Bad> {
    let file = file_of(rt, alloc, input)?;
    Ok(match read_object(alloc, &file) {
        Ok(object) => parts_text(alloc, object.parts())?,
        Err(error) => format!(in alloc; "{error}")?,
    })
}

/// `fault FILE`: the broken rule, or `none`.
pub fn fault(rt: &HostRuntime, alloc: Global, input: &str) -> Result<String, Bad> {
    let file = file_of(rt, alloc, input)?;
    Ok(match read_object(alloc, &file) {
        Ok(_) => String::from_str(alloc, "none")?,
        Err(error) => format!(in alloc; "{error}")?,
    })
}

/// `make OBJECT`: `ok` where the parts are an object, or the broken rule.
pub fn make(alloc: Global, input: &str) -> Result<String, Bad> {
    let parts = parts_of(alloc, input)?;
    Ok(match Object::make(alloc, parts) {
        Ok(_) => String::from_str(alloc, "ok")?,
        Err(error) => format!(in alloc; "{error}")?,
    })
}

// What became of an object that was to be written as a file.
fn written_text(written: Result<Bytes, NoMemory>, file: &[u8]) -> &'static str {
    match written {
        Ok(bytes) => if bytes.as_slice() == file {
            "same"
        } else {
            "other bytes"
        },
        Err(_error) => "no memory",
    }
}

/// `write FILE; OBJECT`: `same` where the object is written as the file.
pub fn write(rt: &HostRuntime, alloc: Global, input: &str) -> Result<String, Bad> {
    let (name, text) = input.split_once("; ").unwrap_or(("-", input));
    let file = file_of(rt, alloc, name)?;
    let parts = parts_of(alloc, text)?;
    let Ok(object) = Object::make(alloc, parts) else {
        return Err(Bad::Text);
    };
    if !is_small(object.parts()) {
        return Err(Bad::Text);
    }
    let said = written_text(write_object(alloc, &object), &file);
    Ok(String::from_str(alloc, said)?)
}
