// What an external symbol holds: fields of the ECOFF object format for Alpha.
use om_io::Name;

/// An external symbol of an ECOFF object file. What its value means depends on its class.
#[derive(Drop, Debug)]
pub struct ExtSym {
    /// The name's bytes, without the zero that ends them in the file. It may be empty.
    pub name: Name,
    /// The address or the number that the symbol defines, or the size in bytes of a common.
    pub value: u64,
    /// The storage class. One that was read is below 32.
    pub class: u8,
}
