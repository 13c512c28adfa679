// The words of texts.
ghost use Rattle.std.specs.Prelude.{◌≡◌, ◌<◌, ◌*◌, ◌/◌, ◌^◌, Some, length, IfOk};
ghost use Rattle.om_prog.specs.View.{items_lists};
ghost use Rattle.om_resolve.specs.Program.{roles_in, item_of, items_of, text_of, program_of};
ghost use Rattle.om_resolve.specs.Linked.{IsLinked};
ghost use Rattle.om_resolve.specs.Maps.{HasRoles};

use crate::linked::{Linked, parts};
use crate::roles::{own_role, roles_of, slots_of};
use om_io::NoMemory;
use om_isa::{Instr, Opnd, decode};
use om_object::Section;
use om_object::entry::long;
use om_object::words::section;
use om_prog::{Item, Role};
use std::alloc::Global;

/// The word of a number of a text.
#[tactic(auto, unfolding(crate::specs::Program::role_at))]
fn item(
    l: &Linked<'_>,
    obj: u32,
    roles: &[Option<Role>],
    s: &Section,
    k: usize,
) -> Result<Item, NoMemory>
    requires few { k < 2 ^ 62 }
    requires there { k < length roles.now }
    requires roles { HasRoles roles.now (roles_in l.now.objects.now obj s.now) }
    ensures { IfOk result (λ i. i ≡ item_of l.now.objects.now obj s.now k) }
{
    let off = 4 * k as u64;
    let word = long(s.bytes.as_slice(), off) as u32;
    let role = match roles[k] {
        Some(role) => role,
        None => own_role(obj, s, off)?,
    };
    Ok(Item {
        word,
        instr: decode(word).unwrap_or(Instr::Halt),
        role,
    })
}

/// The words of an object's text.
#[tactic(auto, using(crate::proofs::Steps::each_more))]
fn items(alloc: Global, l: &Linked<'_>, obj: u32, s: &Section) -> Result<Vec<Item>, NoMemory>
    requires linked { IsLinked l.now }
    requires there { obj < length l.now.objects.now }
    ensures { IfOk result (λ v. v.items ≡ items_of l.now.objects.now obj (Some s.now)) }
{
    // Names the types of an instruction and of an operand, which the check of this loop must be told.
    let _instr: Option<Instr> = None;
    let _operand: Option<Opnd> = None;
    let slots = slots_of(alloc, parts(l.objects, obj))?;
    let count = (s.size / 4) as usize;
    let roles = roles_of(alloc, l, obj, &slots, s, count)?;
    let mut words = Vec::new(alloc);
    for k in 0..count {
        words.push(item(l, obj, &roles, s, k)?)?;
    }
    Ok(words)
}

/// An object's text.
#[tactic(auto, unfolding(crate::specs::Program::text_of))]
fn text(alloc: Global, l: &Linked<'_>, obj: u32) -> Result<Vec<Item>, NoMemory>
    requires linked { IsLinked l.now }
    requires there { obj < length l.now.objects.now }
    ensures { IfOk result (λ v. v.items ≡ text_of l.now.objects.now obj) }
{
    match section(parts(l.objects, obj), 1) {
        None => Ok(Vec::new(alloc)),
        Some(s) => items(alloc, l, obj, s),
    }
}

/// The texts of all objects.
#[tactic(auto, using(crate::proofs::Steps::each_more, crate::proofs::Steps::lists_more), unfolding(crate::specs::Program::program_of))]
pub(crate) fn texts(alloc: Global, l: &Linked<'_>) -> Result<Vec<Vec<Item>>, NoMemory>
    requires { IsLinked l.now }
    ensures { IfOk result (λ v. items_lists v.items ≡ (program_of l.now.objects.now).texts) }
{
    let mut all = Vec::new(alloc);
    for obj in 0..l.objects.len() {
        all.push(text(alloc, l, obj as u32)?)?;
    }
    Ok(all)
}
