// What the fields and branches of objects aim at in their program.
ghost use Rattle.std.specs.Prelude.{◌≡◌, ◌<◌, ◌+◌, ◌*ℤ◌, ◌%◌, ◌^◌, pos, length, IfOk, option_copied};
ghost use Rattle.std.specs.Int.{w64, cast_unsigned};
ghost use Rattle.om_object.specs.Aims.{Symbol, local_aim, gp_value};
ghost use Rattle.om_resolve.specs.Names.{object_at, offset_in};
ghost use Rattle.om_resolve.specs.Targets.{place_in as placed_in, defined_target as target_by, target_of};
ghost use Rattle.om_resolve.specs.Causes.{quad_target as target_of_quad, gp_target as target_of_gp, branch_target as target_of_branch, code_of};
ghost use Rattle.om_resolve.specs.Linked.{IsLinked};

use crate::definition::Definition;
use crate::linked::{Linked, holds_word, parts, section_in};
use om_io::NoMemory;
use om_object::entry::{gp_address, long, quad};
use om_object::words::{branch_disp, instr, offset};
use om_object::{Object, Section};
use om_reloc::Reloc;
use om_value::{Place, Region, Target};

/// A place, if 32 bits hold its offset. In a text of 4 GiB or more there may be others; that is taken as want of memory.
pub(crate) fn place(obj: u32, off: u64) -> Result<Place, NoMemory>
    ensures { IfOk result (λ p. p ≡ record { obj = obj; off = off }) }
{
    if off < 0x1_0000_0000 {
        return Ok(Place {
            obj,
            off: off as u32,
        });
    }
    Err(NoMemory)
}

/// The target at an offset of an object's section.
fn place_in(objects: &[Object], obj: u32, number: u32, off: u64) -> Result<Option<Target>, NoMemory>
    ensures { IfOk result (λ t. t ≡ placed_in objects.now obj number off) }
{
    if number == 1 {
        if !holds_word(objects, obj, off) {
            return Ok(None);
        }
        let at = place(obj, off)?;
        return Ok(Some(Target::Code(at)));
    }
    match section_in(objects, obj, number) {
        None => Ok(None),
        Some(s) => Ok(Some(Target::Ptr {
            region: Region::Sec {
                obj,
                number: s.number,
            },
            off,
        })),
    }
}

/// The target of a definition with an addend.
fn defined_target(
    objects: &[Object],
    definition: Definition,
    addend: u64,
) -> Result<Option<Target>, NoMemory>
    ensures { IfOk result (λ t. t ≡ target_by objects.now definition addend) }
{
    match definition {
        Definition::Missing => Ok(None),
        Definition::Absolute(v) => Ok(Some(Target::Num(v.wrapping_add(addend)))),
        Definition::InSection { obj, section, off } => {
            let target = place_in(objects, obj, u32::from(section), off.wrapping_add(addend))?;
            Ok(target)
        }
        Definition::AsCommon { sym, .. } => Ok(Some(Target::Ptr {
            region: Region::Common { sym },
            off: addend,
        })),
    }
}

/// The target of an object's symbol with an addend.
#[tactic(auto, using(crate::proofs::Meanings::means))]
fn symbol_target(
    l: &Linked<'_>,
    obj: u32,
    index: u32,
    addend: u64,
) -> Result<Option<Target>, NoMemory>
    requires { IsLinked l.now }
    ensures { IfOk result (λ t. t ≡ target_of l.now.objects.now obj (Symbol index addend)) }
{
    let target = defined_target(l.objects, l.meaning(obj, index), addend)?;
    Ok(target)
}

/// The offset of an address in a section, if it is there.
pub(crate) fn offset_by(s: Option<&Section>, address: u64) -> u64
    ensures { result ≡ offset_in (option_copied s.entry) address }
{
    match s {
        None => address,
        Some(s) => address.wrapping_sub(s.addr),
    }
}

/// The target of an address in the section of a number of an object; 14 is the absolute one.
fn local_target(
    objects: &[Object],
    obj: u32,
    number: u32,
    address: u64,
) -> Result<Option<Target>, NoMemory>
    ensures { IfOk result (λ t. t ≡ target_of objects.now obj (local_aim (object_at objects.now obj) number address)) }
{
    if number == 14 {
        return Ok(Some(Target::Num(address)));
    }
    let off = offset_by(section_in(objects, obj, number), address);
    let target = place_in(objects, obj, number, off)?;
    Ok(target)
}

/// The target of a REFQUAD of an object.
pub(crate) fn quad_target(
    l: &Linked<'_>,
    obj: u32,
    s: &Section,
    r: &Reloc,
) -> Result<Option<Target>, NoMemory>
    requires linked { IsLinked l.now }
    requires there { obj < length l.now.objects.now }
    ensures { IfOk result (λ t. t ≡ target_of_quad l.now.objects.now obj s.now r.now) }
{
    let bits = quad(s.bytes.as_slice(), offset(s, r));
    if r.external {
        let target = symbol_target(l, obj, r.index, bits)?;
        return Ok(target);
    }
    let target = local_target(l.objects, obj, r.index, bits)?;
    Ok(target)
}

/// The 32 signed bits of a GPREL32, as 64 bits.
fn gp_bits(s: &Section, r: &Reloc) -> u64
    ensures { result ≡ cast_unsigned w64 (gp_value s.now r.now) }
{
    let bits = long(s.bytes.as_slice(), offset(s, r)) as u32;
    i64::from(bits.cast_signed()).cast_unsigned()
}

/// The target of a GPREL32 of an object.
pub(crate) fn gp_target(
    l: &Linked<'_>,
    obj: u32,
    s: &Section,
    r: &Reloc,
) -> Result<Option<Target>, NoMemory>
    requires linked { IsLinked l.now }
    requires there { obj < length l.now.objects.now }
    ensures { IfOk result (λ t. t ≡ target_of_gp l.now.objects.now obj s.now r.now) }
{
    if r.external {
        let target = symbol_target(l, obj, r.index, gp_bits(s, r))?;
        return Ok(target);
    }
    let address = gp_address(parts(l.objects, obj), s, r);
    let target = local_target(l.objects, obj, r.index, address)?;
    Ok(target)
}

/// How many bytes a branch's displacement is, modulo 2^64.
fn disp_bytes(disp: i32) -> u64
    ensures { result ≡ cast_unsigned w64 (pos 4 *ℤ disp) }
{
    (4 * i64::from(disp)).cast_unsigned()
}

/// The target of an external BRADDR of an object.
pub(crate) fn branch_target(
    l: &Linked<'_>,
    obj: u32,
    s: &Section,
    r: &Reloc,
) -> Result<Option<Target>, NoMemory>
    requires { IsLinked l.now }
    ensures { IfOk result (λ t. t ≡ target_of_branch l.now.objects.now obj s.now r.now) }
{
    match branch_disp(instr(s, offset(s, r))) {
        None => Ok(None),
        Some(disp) => {
            let target = symbol_target(l, obj, r.index, disp_bytes(disp))?;
            Ok(target)
        }
    }
}

/// The place in code that a target is, if it is one.
pub(crate) fn code(target: Option<Target>) -> Option<Place>
    ensures { result ≡ code_of target }
{
    match target {
        Some(Target::Code(q)) => Some(q),
        _ => None,
    }
}
