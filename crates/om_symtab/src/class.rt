// Storage classes of symbols, by the numbers of the ECOFF object format (scText, scData, .. of its symconst.h).
ghost use Rattle.std.specs.Prelude.{◌≡◌};
ghost use Rattle.om_symtab.specs.Classes.{section_of_class as section_by, is_common as common, is_defining as defining, is_naming as naming};

/// The number of the section in which a symbol of a storage class defines an address; `None` where it defines none. Text 1,
/// Data 2, Bss 3, SData 13, SBss 14, RData 15 and RConst 27 do so, in `.text` 1, `.data` 3, `.bss` 6, `.sdata` 4, `.sbss` 5,
/// `.rdata` 2 and `.rconst` 15.
#[tactic(auto, unfolding(crate::specs::Classes::section_of_class))]
pub fn section_of_class(class: u8) -> Option<u8>
    ensures { result ≡ section_by class }
{
    match class {
        1 => Some(1),
        2 => Some(3),
        3 => Some(6),
        13 => Some(4),
        14 => Some(5),
        15 => Some(2),
        27 => Some(15),
        _ => None,
    }
}

/// Whether a symbol of the class, Common 17 or SCommon 18, is a common: its value is the size in bytes that it wants.
pub fn is_common(class: u8) -> bool
    ensures { result ≡ common class }
{
    class == 17 || class == 18
}

/// Whether a symbol of the class defines an address (see `section_of_class`), or, as Abs 5, a number.
pub fn is_defining(class: u8) -> bool
    ensures { result ≡ defining class }
{
    if class == 5 {
        return true;
    }
    section_of_class(class).is_some()
}

/// Whether a symbol of the class defines or refers: it defines, is a common, or is Undefined 6 or SUndefined 21. A symbol of
/// any other class does neither.
pub fn is_naming(class: u8) -> bool
    ensures { result ≡ naming class }
{
    if is_defining(class) {
        return true;
    }
    if is_common(class) {
        return true;
    }
    class == 6 || class == 21
}
