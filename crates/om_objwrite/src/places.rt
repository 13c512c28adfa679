// Where the parts of a written object stand.
ghost use Rattle.std.specs.Prelude.{◌≡◌, ◌+◌, ◌*◌, ◌^◌, ◌<◌, length};
ghost use Rattle.om_objwrite.specs.Written.{blocks_end, bodies as bodies_of, tables as tables_of, table_of, tables_end as all_end};
ghost use Rattle.om_objwrite.specs.LaidOut.{IsLaidOut};

use crate::blocks::{block_end, round_up};
use om_object::{Parts, Section};

/// Where the sections' bytes and relocations begin, where the relocations end, and where the symbolic header
/// stands: byte offsets in the file.
#[derive(Clone, Copy, PartialEq, Eq, Debug)]
pub struct Layout {
    pub bodies: u64,
    pub tables: u64,
    pub end: u64,
    pub symbolic: u64,
}

/// How many bytes a section's relocations have.
#[tactic(auto, using(crate::proofs::Tables::table_length))]
pub fn table_size(s: &Section) -> u64
    requires { length (table_of s.now) < 2 ^ 62 }
    ensures { result ≡ length (table_of s.now) }
{
    16 * s.relocs.as_slice().len() as u64
}

// Where the bytes of sections end that follow a place.
fn bodies_end(sections: &[Section], at: u64) -> u64
    requires { blocks_end 16 at (bodies_of sections.now) < 2 ^ 62 }
    ensures { result ≡ blocks_end 16 at (bodies_of sections.now) }
{
    let mut end = at;
    for s in sections {
        end = block_end(end, 16, s.bytes.as_slice().len() as u64);
    }
    end
}

// Where the relocations of sections end that follow a place.
fn tables_end(sections: &[Section], at: u64) -> u64
    requires { blocks_end 8 at (tables_of sections.now) < 2 ^ 62 }
    ensures { result ≡ blocks_end 8 at (tables_of sections.now) }
{
    let mut end = at;
    for s in sections {
        end = block_end(end, 8, table_size(s));
    }
    end
}

/// The places of an object's parts.
pub fn lay_out(parts: &Parts) -> Layout
    requires { all_end parts.now < 2 ^ 62 }
    ensures { IsLaidOut result parts.now }
{
    let sections = parts.sections.as_slice();
    let bodies = 104 + 64 * sections.len() as u64;
    let tables = bodies_end(sections, bodies);
    let end = tables_end(sections, tables);
    let symbolic = round_up(end, 8);
    Layout {
        bodies,
        tables,
        end,
        symbolic,
    }
}
