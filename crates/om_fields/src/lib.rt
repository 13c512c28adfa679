// Fields of object files and images of the ECOFF object format for Alpha.
//
// Numbers at places of a file are read and appended here, and so are the headers: `read_headers` gives those of an object
// file, or the least of the rules 1 to 4, 6 and 24 that it breaks with its least place, and `read_headers_early` does so
// without rule 24, for readers of whole files.
// The contracts cite tables of rules, each a number with the list of places where a file breaks it (`specs/Rules.antt`,
// `specs/HeaderFields.antt`); `first_fault_is_least` is the law that a reader which tests the rules of a table in turn names
// the least broken one. The readers of symbols and of relocation entries use the same tables.
#![tactic(auto)]

mod extents;
mod head;
mod header_reading;
mod header_rules;
mod headers;
mod reading;
mod sections;
mod tables;
mod writing;

pub use extents::{Extent, add_loaded, is_out_of_place};
pub use head::{FieldErr, Headers, SecHead};
pub use header_reading::{file_headers, read_headers, read_headers_early};
pub use header_rules::{is_past, other_section};
pub use headers::{push_file_header, push_optional_header, push_section_header};
pub use reading::{read_words, u16_at, u32_at, u64_at};
pub use sections::section_number;
pub use tables::first_fault_is_least;
pub use writing::{push_u16, push_u32, push_u64, push_words, push_zeros};
