// The relocation entries of object files of the ECOFF object format for Alpha.
//
// `read_relocs` gives a section's entries in their order, or the lesser of the rules 5 and 26 that its table breaks, with the
// place of the section's header. `read_relocs_early` does so without rule 26; `table_is_past` and `is_over` are the two tests,
// for readers that test other rules in between. The contracts cite the fields at their offsets, the types as a table, and the rules as a table of places
// (`specs/Relocs.antt`).
#![tactic(auto)]

mod reading;
mod reloc;

pub use reading::{is_over, read_relocs, read_relocs_early, table_is_past};
pub use reloc::{Reloc, RelocKind};
