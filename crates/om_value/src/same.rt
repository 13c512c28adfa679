// Equality of places, regions, targets and values.
ghost use Rattle.std.specs.Prelude.{◌≡◌};
ghost use Rattle.om_value.specs.Same.{place_eq, region_eq, target_eq, value_eq};

use crate::value::{Place, Region, Target, Value};

pub(crate) fn same_place(p: Place, q: Place) -> bool
    ensures { result ≡ place_eq p q }
{
    p.obj == q.obj && p.off == q.off
}

pub(crate) fn same_region(r: Region, s: Region) -> bool
    ensures { result ≡ region_eq r s }
{
    match (r, s) {
        (Region::Sec { obj, number }, Region::Sec { obj: o, number: n }) => obj == o && number == n,
        (Region::Common { sym }, Region::Common { sym: t }) => sym == t,
        (Region::Stack, Region::Stack) | (Region::Heap, Region::Heap) => true,
        _ => false,
    }
}

fn same_target(t: Target, u: Target) -> bool
    ensures { result ≡ target_eq t u }
{
    match (t, u) {
        (Target::Num(m), Target::Num(n)) => m == n,
        (Target::Ptr { region, off }, Target::Ptr { region: r, off: x }) => same_region(region, r)
            && off == x,
        (Target::Code(p), Target::Code(q)) => same_place(p, q),
        _ => false,
    }
}

pub(crate) fn same_value(v: Value, w: Value) -> bool
    ensures { result ≡ value_eq v w }
{
    match (v, w) {
        (Value::Num(m), Value::Num(n)) => m == n,
        (Value::Ptr { region, off }, Value::Ptr { region: r, off: x }) => same_region(region, r)
            && off == x,
        (Value::Code(p), Value::Code(q)) => same_place(p, q),
        (Value::Gp(o), Value::Gp(p)) => o == p,
        (Value::Half(p), Value::Half(q)) => same_place(p, q),
        (Value::GpOff { obj, target }, Value::GpOff { obj: o, target: t }) => obj == o
            && same_target(target, t),
        _ => false,
    }
}
