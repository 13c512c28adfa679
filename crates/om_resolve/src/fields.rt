// The initial fields of regions.
ghost use Rattle.std.specs.Prelude.{◌≡◌, ◌<◌, ◌^◌, ◌++◌, length, option_map, IfOk, OnOk};
ghost use Rattle.std.specs.Option.{option_to_list};
ghost use Rattle.om_value.specs.declared.value.Value.TheVariants.{GpOff};
ghost use Rattle.om_value.specs.Lift.{value_of};
ghost use Rattle.om_resolve.specs.Program.{field_by, fields_of as fields_in};
ghost use Rattle.om_resolve.specs.Linked.{IsLinked};

use crate::aims::{gp_target, quad_target};
use crate::linked::Linked;
use om_io::NoMemory;
use om_object::Section;
use om_object::words::offset;
use om_prog::Field;
use om_reloc::{Reloc, RelocKind};
use om_value::{Target, Value};
use std::alloc::Global;

/// A target as a value.
fn value(t: Target) -> Value
    ensures { result ≡ value_of t }
{
    match t {
        Target::Num(n) => Value::Num(n),
        Target::Ptr { region, off } => Value::Ptr { region, off },
        Target::Code(p) => Value::Code(p),
    }
}

/// The field of an address, if it has a target.
fn address_field(off: u64, target: Option<Target>) -> Option<Field>
    ensures { result ≡ option_map (λ t. record { off = off; width = 8; value = value_of t }) target }
{
    match target {
        None => None,
        Some(t) => Some(Field {
            off,
            width: 8,
            value: value(t),
        }),
    }
}

/// The field of a distance from an object's GP value, if it has a target.
fn distance_field(obj: u32, off: u64, target: Option<Target>) -> Option<Field>
    ensures { result ≡ option_map (λ t. record { off = off; width = 4; value = GpOff obj t }) target }
{
    match target {
        None => None,
        Some(target) => Some(Field {
            off,
            width: 4,
            value: Value::GpOff { obj, target },
        }),
    }
}

/// The field that a relocation makes.
fn field(l: &Linked<'_>, obj: u32, s: &Section, r: &Reloc) -> Result<Option<Field>, NoMemory>
    requires linked { IsLinked l.now }
    requires there { obj < length l.now.objects.now }
    ensures { IfOk result (λ f. f ≡ field_by l.now.objects.now obj s.now r.now r.now.kind) }
{
    match r.kind {
        RelocKind::RefQuad => {
            let target = quad_target(l, obj, s, r)?;
            Ok(address_field(offset(s, r), target))
        }
        RelocKind::GpRel32 => {
            let target = gp_target(l, obj, s, r)?;
            Ok(distance_field(obj, offset(s, r), target))
        }
        _ => Ok(None),
    }
}

fn push_field(fields: &mut Vec<Field>, field: Option<Field>) -> Result<(), NoMemory>
    ensures { OnOk result (fields.new.items ≡ fields.old.items ++ option_to_list field) }
{
    if let Some(field) = field {
        fields.push(field)?;
    }
    Ok(())
}

/// The fields that the relocations of a section make.
#[tactic(auto, using(crate::proofs::Steps::joined_more), unfolding(crate::specs::Program::fields_of))]
pub(crate) fn fields_of(
    alloc: Global,
    l: &Linked<'_>,
    obj: u32,
    s: &Section,
) -> Result<Vec<Field>, NoMemory>
    requires linked { IsLinked l.now }
    requires there { obj < length l.now.objects.now }
    ensures { IfOk result (λ v. v.items ≡ fields_in l.now.objects.now obj s.now) }
{
    let mut fields = Vec::new(alloc);
    let relocs = s.relocs.as_slice();
    for k in 0..relocs.len() {
        let r = relocs[k];
        push_field(&mut fields, field(l, obj, s, &r)?)?;
    }
    Ok(fields)
}
