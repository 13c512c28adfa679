// The program of objects, or the first cause why they are none.
ghost use Rattle.std.specs.Prelude.{◌≡◌, ◌<◌, ◌^◌, [], None, length, slice_index_or, IfOk};
ghost use Rattle.om_resolve.specs.Names.{names_of, start_name, definition_of};
ghost use Rattle.om_resolve.specs.Causes.{Checks, is_in_text as lies_in_text, duplicate, no_start, scanned, cause_of, name_causes, first_cause};
ghost use Rattle.om_resolve.specs.Program.{Resolves, entry_by, program_of};
ghost use Rattle.om_resolve.specs.Linked.{IsLinked};

use crate::causes::ResolveErr;
use crate::definition::Definition;
use crate::finding::{Finding, Scan};
use crate::linked::Linked;
use crate::names::link;
use crate::regions::regions;
use crate::scans::first_in;
use crate::texts::texts;
use crate::totals::check_limits;
use om_io::{Name, NoMemory};
use om_object::Object;
use om_prog::{ProgErr, Program};
use om_value::Place;
use std::alloc::Global;

/// The name of a number.
fn name(alloc: Global, l: &Linked<'_>, number: u32) -> Result<Name, NoMemory>
    requires { IsLinked l.now }
    ensures { IfOk result (λ n. n ≡ slice_index_or (names_of l.now.objects.now) number []) }
{
    match l.names.get_index(number as usize) {
        None => Ok(Name::from_vec(Vec::new(alloc))),
        Some(bytes) => {
            let copy = bytes.to_vec(alloc)?;
            Ok(Name::from_vec(copy))
        }
    }
}

/// A name that has two definitions.
fn check_duplicates(alloc: Global, l: &Linked<'_>) -> Result<(), ResolveErr>
    requires { IsLinked l.now }
    ensures { Checks (duplicate l.now.objects.now) result }
{
    for k in 0..l.known.len() {
        let known = l.known[k];
        if let Some(second) = known.second {
            let name = name(alloc, l, k as u32)?;
            return Err(ResolveErr::Duplicate {
                name,
                first: known.first.unwrap_or(0),
                second,
            });
        }
    }
    Ok(())
}

fn is_in_text(definition: Definition) -> bool
    ensures { result ≡ lies_in_text definition }
{
    match definition {
        Definition::InSection { section, .. } => section == 1,
        _ => false,
    }
}

/// Tests whether `__start`, the name of number 0, is in a text.
fn check_start(alloc: Global, l: &Linked<'_>) -> Result<(), ResolveErr>
    requires { IsLinked l.now }
    ensures { Checks (no_start l.now.objects.now) result }
{
    if is_in_text(l.definition(0)) {
        return Ok(());
    }
    let name = name(alloc, l, 0)?;
    let file = l.definer(0);
    Err(ResolveErr::Unresolved { name, file })
}

/// The cause that a finding is.
fn cause(alloc: Global, l: &Linked<'_>, finding: Finding) -> Result<ResolveErr, NoMemory>
    requires { IsLinked l.now }
    ensures { IfOk result (λ e. e ≡ cause_of l.now.objects.now finding) }
{
    match finding {
        Finding::Nameless { number, file } => {
            let name = name(alloc, l, number)?;
            Ok(ResolveErr::Unresolved { name, file })
        }
        Finding::Broken { file, rule, at } => Ok(ResolveErr::Rule { file, rule, at }),
        Finding::Far { from, words } => Ok(ResolveErr::TooFar { from, words }),
    }
}

/// What is wrong at a relocation.
#[tactic(auto, unfolding(crate::specs::Causes::scanned))]
fn check_relocs(alloc: Global, l: &Linked<'_>, scan: Scan) -> Result<(), ResolveErr>
    requires { IsLinked l.now }
    ensures { Checks (scanned l.now.objects.now scan) result }
{
    match first_in(l, scan)? {
        None => Ok(()),
        Some(finding) => {
            let cause = cause(alloc, l, finding)?;
            Err(cause)
        }
    }
}

/// Tests the names, and what external relocations aim at.
fn check_names(alloc: Global, l: &Linked<'_>) -> Result<(), ResolveErr>
    requires { IsLinked l.now }
    ensures { Checks (name_causes l.now.objects.now) result }
{
    if let Err(cause) = check_duplicates(alloc, l) {
        return Err(cause);
    }
    if let Err(cause) = check_start(alloc, l) {
        return Err(cause);
    }
    if let Err(cause) = check_relocs(alloc, l, Scan::Names) {
        return Err(cause);
    }
    check_relocs(alloc, l, Scan::Targets)
}

/// Tests all causes in their order.
fn check_all(alloc: Global, l: &Linked<'_>) -> Result<(), ResolveErr>
    requires { IsLinked l.now }
    ensures { Checks (first_cause l.now.objects.now) result }
{
    if let Err(cause) = check_names(alloc, l) {
        return Err(cause);
    }
    if let Err(cause) = check_limits(l) {
        return Err(cause);
    }
    check_relocs(alloc, l, Scan::Reach)
}

/// The place where the program starts.
fn entry(l: &Linked<'_>) -> Result<Place, NoMemory>
    requires { IsLinked l.now }
    ensures { IfOk result (λ p. p ≡ entry_by (definition_of l.now.objects.now start_name)) }
{
    match l.definition(0) {
        Definition::InSection { obj, off, .. } => crate::aims::place(obj, off),
        _ => Ok(Place { obj: 0, off: 0 }),
    }
}

/// The program.
fn program(alloc: Global, l: &Linked<'_>) -> Result<Program, NoMemory>
    requires linked { IsLinked l.now }
    requires sound { first_cause l.now.objects.now ≡ None }
    ensures { IfOk result (λ p. p ≡ program_of l.now.objects.now) }
{
    let texts = texts(alloc, l)?;
    let regions = regions(alloc, l)?;
    let entry = entry(l)?;
    match Program::make(alloc, texts, regions, entry) {
        Ok(program) => Ok(program),
        Err(ProgErr::NoMemory) => Err(NoMemory),
        // Objects without a cause make a program.
        Err(ProgErr::Bad) => unreachable!(),
    }
}

/// The program of objects, which are numbered from 0 in their order, or the first cause why they are none. Where no
/// cause applies they have one (see `objects_make_programs`), and only want of memory can take its place; it can take
/// the place of a cause too.
///
/// Takes time near-linear in the symbols, relocations, words and fields, and memory for the program and the names.
pub fn resolve(alloc: Global, objects: &[Object]) -> Result<Program, ResolveErr>
    requires { length objects.now < 2 ^ 32 }
    ensures { Resolves objects.now result }
{
    let l = link(alloc, objects)?;
    check_all(alloc, &l)?;
    let program = program(alloc, &l)?;
    Ok(program)
}
