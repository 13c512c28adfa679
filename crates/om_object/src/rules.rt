// The rules on the parts of an object, by what they look at.

/// A rule that is tested at each relocation by itself.
#[derive(Clone, Copy, PartialEq, Eq, Debug)]
pub enum RelocRule {
    /// The field is inside its section.
    Inside,
    /// In `.text` it is a word.
    Aligned,
    /// It names a symbol or a section.
    Named,
    /// Its target is inside its section, and in `.text` a word.
    Targeted,
    /// A GPDISP's two words are an LDAH and an LDA, and its base place is a word.
    Paired,
    /// A LITERAL stands on an LDQ of a slot.
    Slotted,
    /// A BRADDR stands on a branch.
    Branching,
    /// Its type is a known one.
    Known,
    /// Its type may stand in its section.
    Placed,
    /// Its offset is a multiple of its size.
    Natural,
}

/// A rule that is tested at each section by itself.
#[derive(Clone, Copy, PartialEq, Eq, Debug)]
pub enum SectionRule {
    /// Its address and its size are multiples of what its number asks for.
    Uneven,
    /// It has as many bytes as its size says, and none in `.bss` and `.sbss`.
    Misfilled,
    /// It has fewer relocations than a count can say.
    Crowded,
}

/// A rule that is tested at each symbol by itself.
#[derive(Clone, Copy, PartialEq, Eq, Debug)]
pub enum SymbolRule {
    /// Its value is a place of its section.
    Misvalued,
    /// Its name and its class can be written.
    Unwritable,
}

/// A pass over the relocations or the words of all sections.
#[derive(Clone, Copy, PartialEq, Eq, Debug)]
pub enum Pass {
    /// Relocations that break a rule by themselves.
    Entry(RelocRule),
    /// LITUSEs without an earlier LITERAL, or of an unknown use.
    Unled,
    /// Fields that share a byte with an earlier one.
    Shared,
    /// Words of the text that are no instruction.
    Unreadable,
    /// Branches of the text without an external BRADDR whose target is no word.
    Astray,
}

/// A rule on the relocation table of a loaded section of a file.
#[derive(Clone, Copy, PartialEq, Eq, Debug)]
pub enum TableRule {
    /// It lies in the file.
    Past,
    /// Its count is not the one that stands for more.
    Over,
}
