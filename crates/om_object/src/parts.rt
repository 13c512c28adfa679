// The parts of an object.
use om_io::{Bytes, Listed};
use om_reloc::Reloc;
use om_symtab::ExtSym;

/// A loaded section. `.bss` and `.sbss` have no bytes.
#[derive(Drop, Debug)]
pub struct Section {
    pub number: u8,
    pub addr: u64,
    pub size: u64,
    pub bytes: Bytes,
    pub relocs: Listed<Reloc>,
}

/// An object's GP value, its loaded sections and its external symbols.
#[derive(Drop, Debug)]
pub struct Parts {
    pub gp: u64,
    pub sections: Listed<Section>,
    pub symbols: Listed<ExtSym>,
}
