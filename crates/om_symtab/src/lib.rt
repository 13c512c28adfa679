// The external symbols of object files of the ECOFF object format for Alpha.
//
// `read_symbols` gives a file's external symbols in their order, or the least of the rules 7 and 8 that the file breaks with
// its least place. `symbols` and `first_fault` are its two halves, for readers that test other rules in between. The class of
// a symbol says what it is: `section_of_class`, `is_common`, `is_defining` and `is_naming` tell. The contracts cite the
// fields at their offsets and the rules as tables (`specs/Symbols.antt`), and the classes as a table (`specs/Classes.antt`).
#![tactic(auto)]

mod class;
mod reading;
mod symbol;
mod symbol_rules;

pub use class::{is_common, is_defining, is_naming, section_of_class};
pub use reading::{read_symbols, symbols};
pub use symbol::ExtSym;
pub use symbol_rules::{first_fault, symbols_place};
