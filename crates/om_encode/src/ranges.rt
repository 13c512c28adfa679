// That the numbers of a program fit the types of its fields.
ghost use Rattle.std.specs.Prelude.{◌≡◌, ℕ, ◌+◌, ◌*◌, ◌<◌, ◌^◌, All, Some, IfSome, slice_index};
ghost use Rattle.om_lockstep.specs.Addresses.{IsTarget, IsValue};
ghost use Rattle.om_prog.specs.View.{text_of};
ghost use Rattle.om_prog.specs.Valid.{IsProgram};
ghost use Rattle.om_encode.specs.Data.{HasWidths, RoleFits};

use om_prog::{Field, Item, Program, RegionInit, Role};
use om_value::{Place, Target, Value};

// A number of 64 bits.
fn fits_64(_n: u64)
    ensures { _n < 2 ^ 64 }
{}

fn target_fits(t: Target)
    ensures { IsTarget t }
{
    match t {
        Target::Num(n) => fits_64(n),
        Target::Ptr { region: _, off } => fits_64(off),
        Target::Code(_) => {}
    }
}

fn value_fits(value: Value)
    ensures { IsValue value }
{
    match value {
        Value::Num(n) => fits_64(n),
        Value::Ptr { region: _, off } => fits_64(off),
        Value::GpOff { obj: _, target } => target_fits(target),
        Value::Code(_) | Value::Gp(_) | Value::Half(_) => {}
    }
}

fn fields_fit(fields: &[Field])
    ensures { All (λ f. IsValue f.value) fields.now }
{
    for field in fields {
        value_fits(field.value);
    }
}

fn bytes_fit(_bytes: &[u8])
    ensures { (k : ℕ) → slice_index _bytes.now k < 256 }
{}

fn regions_fit(regions: &[RegionInit])
    ensures bytes { All (λ r. (k : ℕ) → slice_index r.bytes k < 256) regions.now }
    ensures fields { All (λ r. All (λ f. IsValue f.value) r.fields) regions.now }
{
    for init in regions {
        bytes_fit(init.bytes.as_slice());
        fields_fit(init.fields.as_slice());
    }
}

fn role_fits(role: Role)
    ensures { RoleFits role }
{
    match role {
        Role::Lit(target) => target_fits(target),
        Role::Plain | Role::GpHi { .. } | Role::GpLo { .. } | Role::To(_) => {}
    }
}

fn item_fits(item: Option<Item>)
    ensures { IfSome item (λ i. RoleFits i.role) }
{
    if let Some(item) = item {
        role_fits(item.role);
    }
}

fn text_fits(program: &Program, obj: u32)
    requires { IsProgram program.now }
    ensures { All (λ i. RoleFits i.role) (text_of program.now obj) }
{
    for k in 0..program.words(obj) {
        item_fits(program.item(Place { obj, off: 4 * k }));
    }
}

fn texts_fit(program: &Program)
    ensures { All (λ text. All (λ i. RoleFits i.role) text) program.now.texts }
{
    for obj in 0..program.objects() {
        text_fits(program, obj);
    }
}

/// The numbers of a program fit the fields that hold them. It changes nothing: no number of a program is wider.
pub(crate) fn program_fits(program: &Program)
    ensures widths { HasWidths program.now }
    ensures program { IsProgram program.now }
{
    texts_fit(program);
    regions_fit(program.regions());
}
