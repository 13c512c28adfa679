// The tests of one section.
ghost use Rattle.std.specs.Prelude.{◌≡◌};
ghost use Rattle.om_object.specs.Rules.{is_uneven as uneven, is_misfilled as misfilled, bytes_wanted as wanted, section_breaks};

use crate::parts::Section;
use crate::rules::SectionRule;

fn is_uneven(s: &Section) -> bool
    ensures { result ≡ uneven s.now }
{
    if s.size > 0 && s.addr % 16 != 0 {
        return true;
    }
    if s.number == 1 && s.size % 4 != 0 {
        return true;
    }
    s.number == 13 && s.size % 8 != 0
}

// How many bytes a section of its number and size has.
fn bytes_wanted(s: &Section) -> u64
    ensures { result ≡ wanted s.now }
{
    if s.number == 5 || s.number == 6 {
        0
    } else {
        s.size
    }
}

fn is_misfilled(s: &Section) -> bool
    ensures { result ≡ misfilled s.now }
{
    s.bytes.as_slice().len() as u64 != bytes_wanted(s)
}

/// Whether a section breaks a rule by itself.
pub fn breaks_section(rule: SectionRule, s: &Section) -> bool
    ensures { result ≡ section_breaks rule s.now }
{
    match rule {
        SectionRule::Uneven => is_uneven(s),
        SectionRule::Misfilled => is_misfilled(s),
        SectionRule::Crowded => s.relocs.as_slice().len() >= 65535,
    }
}
