// Callers of the readers of headers, and of what appends words.
ghost use Rattle.std.specs.Prelude.{OnOk};
ghost use Rattle.om_fields.specs.Answers.{Reads};
ghost use Rattle.om_fields.specs.Bytes.{Grows, word_bytes};
ghost use Rattle.om_fields.specs.HeaderFields.{headers_of, early_rules, field_rules};

use om_fields::{FieldErr, Headers, push_words, read_headers, read_headers_early};
use om_io::NoMemory;
use std::alloc::Global;

pub fn headers(alloc: Global, bytes: &[u8]) -> Result<Headers, FieldErr>
    ensures { Reads field_rules bytes.now (headers_of bytes.now) result }
{
    read_headers(alloc, bytes)
}

pub fn early_headers(alloc: Global, bytes: &[u8]) -> Result<Headers, FieldErr>
    ensures { Reads early_rules bytes.now (headers_of bytes.now) result }
{
    read_headers_early(alloc, bytes)
}

pub fn append_words(out: &mut Vec<u8>, words: &[u32]) -> Result<(), NoMemory>
    ensures { OnOk result (Grows out.old.items out.new.items (word_bytes words.now)) }
{
    push_words(out, words)
}
