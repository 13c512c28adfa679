// Rows on the headers of a file.
use crate::files::file_of;
use crate::parts::name_text;
use om_fields::{FieldErr, Headers, SecHead, read_headers, read_headers_early};
use om_rows::Bad;
use std::alloc::{AllocError, Global};

// `; NAME ADDR SIZE BYTES_AT RELOCS_AT RELOCS`
fn head_text(alloc: Global, head: &SecHead) -> Result<String, AllocError> {
    let name = name_text(alloc, head.name.as_slice())?;
    format!(in alloc;
        "; {name} {:#x} {:#x} {} {} {}",
        head.addr, head.size, head.bytes_at, head.relocs_at, head.relocs
    )
}

// `GP SYM_AT; NAME ADDR SIZE BYTES_AT RELOCS_AT RELOCS; ..`, or the broken rule.
fn text_of(alloc: Global, read: Result<Headers, FieldErr>) -> Result<String, AllocError> {
    let headers = match read {
        Ok(headers) => headers,
        Err(error) => return format!(in alloc; "{error}"),
    };
    let mut text = format!(in alloc; "{:#x} {}", headers.gp, headers.sym_at)?;
    for head in headers.sections.as_slice() {
        let said = head_text(alloc, head)?;
        text.push_str(said.as_str())?;
    }
    Ok(text)
}

/// `headers FILE`: the headers, or the broken rule.
pub fn headers(rt: &HostRuntime, alloc: Global, input: &str) -> Result<String, Bad> {
    let file = file_of(rt, alloc, input)?;
    Ok(text_of(alloc, read_headers(alloc, &file))?)
}

/// `early FILE`: the headers, or the broken rule other than 24.
pub fn early(rt: &HostRuntime, alloc: Global, input: &str) -> Result<String, Bad> {
    let file = file_of(rt, alloc, input)?;
    Ok(text_of(alloc, read_headers_early(alloc, &file))?)
}
