// The places where a program may be entered from outside its code.
ghost use Rattle.std.specs.Prelude.{◌≡◌, ◌++◌, IfOk, flat_map};
ghost use Rattle.om_graph.specs.Whole.{target_places, value_places, program_roots};
ghost use Rattle.om_lift.specs.Places.{option_list};

use om_io::NoMemory;
use om_prog::{Field, Program};
use om_value::{Place, Target, Value};
use std::alloc::Global;

// The place in code that a target names.
fn target_place(t: Target) -> Option<Place>
    ensures { option_list result ≡ target_places t }
{
    match t {
        Target::Code(place) => Some(place),
        _ => None,
    }
}

// The place in code that a value names.
fn value_place(v: Value) -> Option<Place>
    ensures { option_list result ≡ value_places v }
{
    match v {
        Value::Code(place) => Some(place),
        Value::GpOff { target, .. } => target_place(target),
        _ => None,
    }
}

// Appends the places that fields name.
fn add_fields(roots: &mut Vec<Place>, fields: &[Field]) -> Result<(), NoMemory>
    ensures { IfOk result (λ u. roots.new.items ≡ roots.old.items ++ flat_map (λ f. value_places f.value) fields.now) }
{
    for field in fields {
        if let Some(place) = value_place(field.value) {
            roots.push(place)?;
        }
    }
    Ok(())
}

/// The entry, then the places that initial fields name.
pub(crate) fn roots_of(alloc: Global, p: &Program) -> Result<Vec<Place>, NoMemory>
    ensures { IfOk result (λ v. v.items ≡ program_roots p.now) }
{
    let mut roots = Vec::new(alloc);
    roots.push(p.entry())?;
    for region in p.regions() {
        add_fields(&mut roots, region.fields.as_slice())?;
    }
    Ok(roots)
}
