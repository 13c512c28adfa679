// What a relocation entry holds: fields of the ECOFF object format for Alpha.

/// What a relocation entry is for: the type that stands in it. The numbers are those of the ECOFF object format's reloc.h.
#[derive(Clone, Copy, PartialEq, Eq, Debug)]
pub enum RelocKind {
    /// 0: the entry is passed over.
    Ignore,
    /// 1: four bytes that hold an address.
    RefLong,
    /// 2: eight bytes that hold an address, or an addend to a symbol.
    RefQuad,
    /// 3: four bytes that hold an address less the GP value, or an addend to a symbol.
    GpRel32,
    /// 4: a load of an address from the table of literal addresses, `.lita`.
    Literal,
    /// 5: an instruction that uses what an earlier `Literal` loaded.
    LitUse,
    /// 6: an LDAH that begins to set the GP value, and an LDA at a distance from it that ends it.
    GpDisp,
    /// 7: a branch to a symbol.
    BrAddr,
    /// 8: the hint of a jump.
    Hint,
    /// Any other number, from 9 on in entries that were read.
    Other(u8),
}

/// A relocation entry of an ECOFF object file.
#[derive(Clone, Copy, PartialEq, Eq, Debug)]
pub struct Reloc {
    /// The address of the field or of the instruction that it speaks of, in the section's address range.
    pub place: u64,
    /// The number of a symbol where `external`, else of a section; of a `LitUse` how it uses the address, 1 to 3; of a `GpDisp`
    /// the distance in bytes from its LDAH to its LDA, as 32 signed bits.
    pub index: u32,
    /// The type.
    pub kind: RelocKind,
    /// Whether `index` numbers an external symbol.
    pub external: bool,
}
