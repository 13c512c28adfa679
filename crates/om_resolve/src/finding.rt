// What is looked for in all relocations, and what is found.
ghost use Rattle.std.specs.Prelude.{◌≡◌};
ghost use Rattle.om_resolve.specs.Findings.{is_before as comes_before, better as better_of};

use om_value::Place;

/// What to look for.
#[derive(Clone, Copy, PartialEq, Eq, Debug)]
pub(crate) enum Scan {
    /// Names that are referenced and have no definition.
    Names,
    /// Targets that break rule 27 or 28.
    Targets,
    /// Branches that do not reach their targets.
    Reach,
}

/// What is wrong at a relocation.
#[derive(Clone, Copy, PartialEq, Eq, Debug)]
pub(crate) enum Finding {
    /// A name without a definition, by its number, and the object that references it.
    Nameless { number: u32, file: u32 },
    /// A broken rule, and the relocation's address.
    Broken { file: u32, rule: u8, at: u64 },
    /// A branch that is too far from its target.
    Far { from: Place, words: i64 },
}

/// Whether a finding comes before another of its kind: by the number of the name, then the object; by the object, then the
/// rule, then the address; or by the place.
pub(crate) fn is_before(a: Finding, b: Finding) -> bool
    ensures { result ≡ comes_before a b }
{
    match a {
        Finding::Nameless { number, file } => match b {
            Finding::Nameless {
                number: other,
                file: second,
            } => number < other || (number == other && file < second),
            _ => false,
        },
        Finding::Broken { file, rule, at } => match b {
            Finding::Broken {
                file: other,
                rule: second,
                at: third,
            } => file < other
                || (file == other && (rule < second || (rule == second && at < third))),
            _ => false,
        },
        Finding::Far { from, .. } => match b {
            Finding::Far { from: other, .. } => {
                from.obj < other.obj || (from.obj == other.obj && from.off < other.off)
            }
            _ => false,
        },
    }
}

/// The one of two findings that comes first, if there are any.
pub(crate) fn better(best: Option<Finding>, found: Option<Finding>) -> Option<Finding>
    ensures { result ≡ better_of best found }
{
    match best {
        None => found,
        Some(a) => match found {
            None => Some(a),
            Some(b) => { if is_before(b, a) { Some(b) } else { Some(a) } }
        },
    }
}
