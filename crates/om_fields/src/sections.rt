// Names of sections, as they stand in the section headers of the ECOFF object format: 8 bytes, padded with zeros.
ghost use Rattle.std.specs.Prelude.{◌≡◌};
ghost use Rattle.om_fields.specs.Sections.{number_of_name, is_passed_over as is_passed};

/// The number of a loaded section by its name's 8 bytes; `None` for any other name. Relocation entries name sections by
/// these numbers.
#[tactic(auto, unfolding(crate::specs::Sections::number_of_name))]
pub fn section_number(name: &[u8]) -> Option<u8>
    ensures { result ≡ number_of_name name.now }
{
    if b".text\0\0\0".as_slice() == name {
        return Some(1);
    }
    if b".rdata\0\0".as_slice() == name {
        return Some(2);
    }
    if b".data\0\0\0".as_slice() == name {
        return Some(3);
    }
    if b".sdata\0\0".as_slice() == name {
        return Some(4);
    }
    if b".sbss\0\0\0".as_slice() == name {
        return Some(5);
    }
    if b".bss\0\0\0\0".as_slice() == name {
        return Some(6);
    }
    if b".lit8\0\0\0".as_slice() == name {
        return Some(8);
    }
    if b".lit4\0\0\0".as_slice() == name {
        return Some(9);
    }
    if b".lita\0\0\0".as_slice() == name {
        return Some(13);
    }
    if b".rconst\0".as_slice() == name {
        return Some(15);
    }
    None
}

/// Whether a section of that name, of 8 bytes, is passed over, whatever its size: `.xdata`, `.pdata` or `.comment`.
#[tactic(auto, unfolding(crate::specs::Sections::is_passed_over))]
pub fn is_passed_over(name: &[u8]) -> bool
    ensures { result ≡ is_passed name.now }
{
    b".xdata\0\0".as_slice() == name
        || b".pdata\0\0".as_slice() == name
        || b".comment".as_slice() == name
}
