// What the words of a text stand for.
ghost use Rattle.std.specs.Prelude.{◌≡◌, ℕ, ◌<◌, ◌^◌, List, [], ◌∷◌, ◌++◌, true, length, OnOk, IfOk};
ghost use Rattle.om_reloc.specs.declared.reloc.Reloc.{Reloc as AnyReloc};
ghost use Rattle.om_reloc.specs.declared.reloc.RelocKind.TheVariants.{Literal, GpDisp, BrAddr};
ghost use Rattle.om_object.specs.Aims.{slot_aim};
ghost use Rattle.om_prog.specs.declared.item.Role.{Role as AnyRole};
ghost use Rattle.om_resolve.specs.Names.{object_at};
ghost use Rattle.om_resolve.specs.Targets.{target_of};
ghost use Rattle.om_resolve.specs.Program.{own_role as role_of_its_own, literal_target as target_of_literal, high_roles, roles_by, roles_at, roles_in};
ghost use Rattle.om_resolve.specs.Linked.{IsLinked};
ghost use Rattle.om_resolve.specs.Maps.{HasRoles, HasQuads};
ghost use Rattle.om_resolve.specs.Slots.{AreSlots};

use crate::aims::{branch_target, code, place, quad_target};
use crate::linked::{Linked, parts};
use om_io::NoMemory;
use om_object::entry::quad;
use om_object::words::{
    base_offset, branch_disp, instr, lda_offset, offset, own_target, section, slot_at,
};
use om_object::{Parts, Section};
use om_prog::Role;
use om_reloc::{Reloc, RelocKind};
use om_value::Target;
use std::alloc::Global;
use std::collections::BTreeMap;

/// The REFQUADs of an object's address table, by the offsets of their slots.
#[derive(Drop)]
pub(crate) struct Slots {
    entries: BTreeMap<u64, Reloc>,
}

/// Notes a relocation of the address table, unless it is no REFQUAD or an earlier one stands at its slot.
fn add_slot(entries: &mut BTreeMap<u64, Reloc>, lita: &Section, r: &Reloc) -> Result<(), NoMemory>
    ensures { (rs : List AnyReloc) → HasQuads lita.now entries.old rs → OnOk result (HasQuads lita.now entries.new (rs ++ r.now ∷ [])) }
{
    if let RelocKind::RefQuad = r.kind {
        let off = offset(lita, r);
        if !entries.contains_key(&off) {
            entries.insert(off, *r)?;
        }
    }
    Ok(())
}

/// The REFQUADs of a section, by the offsets of their fields.
fn quads_of(alloc: Global, lita: &Section) -> Result<BTreeMap<u64, Reloc>, NoMemory>
    ensures { IfOk result (λ m. HasQuads lita.now m lita.now.relocs) }
{
    let mut entries = BTreeMap::new(alloc);
    let relocs = lita.relocs.as_slice();
    for k in 0..relocs.len() {
        add_slot(&mut entries, lita, &relocs[k])?;
    }
    Ok(entries)
}

/// The REFQUADs of an object's address table.
pub(crate) fn slots_of(alloc: Global, p: &Parts) -> Result<Slots, NoMemory>
    ensures { IfOk result (AreSlots p.now) }
{
    match section(p, 13) {
        None => Ok(Slots {
            entries: BTreeMap::new(alloc),
        }),
        Some(lita) => {
            let entries = quads_of(alloc, lita)?;
            Ok(Slots { entries })
        }
    }
}

/// The target of a slot of the address table: its REFQUAD's, or the number that stands there.
fn slot_target(
    l: &Linked<'_>,
    obj: u32,
    slots: &Slots,
    lita: &Section,
    off: u64,
) -> Result<Option<Target>, NoMemory>
    requires linked { IsLinked l.now }
    requires there { obj < length l.now.objects.now }
    requires quads { HasQuads lita.now slots.now.entries lita.now.relocs }
    ensures { IfOk result (λ t. t ≡ target_of l.now.objects.now obj (slot_aim (object_at l.now.objects.now obj) lita.now off)) }
{
    match slots.entries.get(&off) {
        None => Ok(Some(Target::Num(quad(lita.bytes.as_slice(), off)))),
        Some(r) => quad_target(l, obj, lita, r),
    }
}

/// The target of a LITERAL.
fn literal_target(
    l: &Linked<'_>,
    obj: u32,
    slots: &Slots,
    s: &Section,
    r: &Reloc,
) -> Result<Option<Target>, NoMemory>
    requires linked { IsLinked l.now }
    requires there { obj < length l.now.objects.now }
    requires slots { AreSlots (object_at l.now.objects.now obj) slots.now }
    ensures { IfOk result (λ t. t ≡ target_of_literal l.now.objects.now obj s.now r.now) }
{
    let p = parts(l.objects, obj);
    match section(p, 13) {
        None => Ok(None),
        Some(lita) => match slot_at(p, s, r) {
            None => Ok(None),
            Some(off) => slot_target(l, obj, slots, lita, off),
        },
    }
}

/// Gives the word at an offset a role, unless an earlier relocation stands on it, or the offset is that of no word.
fn put(roles: &mut Vec<Option<Role>>, off: u64, role: Role)
    ensures length { length roles.new.items ≡ length roles.old.items }
    ensures roles { (rs : List (ℕ × AnyRole)) → HasRoles roles.old.items rs → HasRoles roles.new.items (rs ++ (off, role) ∷ []) }
{
    if off % 4 != 0 {
        return;
    }
    if off / 4 >= roles.len() as u64 {
        return;
    }
    let k = (off / 4) as usize;
    if roles[k].is_some() {
        return;
    }
    roles[k] = Some(role);
}

/// The role of the first word of a pair that sets the global pointer.
fn add_high(
    roles: &mut Vec<Option<Role>>,
    l: &Linked<'_>,
    obj: u32,
    s: &Section,
    r: &Reloc,
) -> Result<(), NoMemory>
    requires linked { IsLinked l.now }
    requires there { obj < length l.now.objects.now }
    ensures length { length roles.new.items ≡ length roles.old.items }
    ensures roles { (rs : List (ℕ × AnyRole)) → HasRoles roles.old.items rs → OnOk result (HasRoles roles.new.items (rs ++ high_roles l.now.objects.now obj s.now r.now)) }
{
    match base_offset(parts(l.objects, obj), s, r) {
        None => Ok(()),
        Some(base) => {
            let base = place(obj, base)?;
            put(roles, offset(s, r), Role::GpHi { base });
            Ok(())
        }
    }
}

/// The roles of the two words of such a pair.
#[tactic(auto, using(crate::proofs::Steps::append_append))]
fn add_pair(
    roles: &mut Vec<Option<Role>>,
    l: &Linked<'_>,
    obj: u32,
    s: &Section,
    r: &Reloc,
) -> Result<(), NoMemory>
    requires linked { IsLinked l.now }
    requires there { obj < length l.now.objects.now }
    ensures length { length roles.new.items ≡ length roles.old.items }
    ensures roles { (rs : List (ℕ × AnyRole)) → HasRoles roles.old.items rs → OnOk result (HasRoles roles.new.items (rs ++ roles_by l.now.objects.now obj s.now r.now GpDisp)) }
{
    add_high(roles, l, obj, s, r)?;
    let hi = place(obj, offset(s, r))?;
    put(roles, lda_offset(s, r), Role::GpLo { hi });
    Ok(())
}

/// The role of a load of an address.
fn add_literal(
    roles: &mut Vec<Option<Role>>,
    l: &Linked<'_>,
    obj: u32,
    slots: &Slots,
    s: &Section,
    r: &Reloc,
) -> Result<(), NoMemory>
    requires linked { IsLinked l.now }
    requires there { obj < length l.now.objects.now }
    requires slots { AreSlots (object_at l.now.objects.now obj) slots.now }
    ensures length { length roles.new.items ≡ length roles.old.items }
    ensures roles { (rs : List (ℕ × AnyRole)) → HasRoles roles.old.items rs → OnOk result (HasRoles roles.new.items (rs ++ roles_by l.now.objects.now obj s.now r.now Literal)) }
{
    match literal_target(l, obj, slots, s, r)? {
        None => Ok(()),
        Some(t) => {
            put(roles, offset(s, r), Role::Lit(t));
            Ok(())
        }
    }
}

/// The role of a branch to a symbol.
fn add_branch(
    roles: &mut Vec<Option<Role>>,
    l: &Linked<'_>,
    obj: u32,
    s: &Section,
    r: &Reloc,
) -> Result<(), NoMemory>
    requires linked { IsLinked l.now }
    requires there { obj < length l.now.objects.now }
    requires external { r.now.external ≡ true }
    ensures length { length roles.new.items ≡ length roles.old.items }
    ensures roles { (rs : List (ℕ × AnyRole)) → HasRoles roles.old.items rs → OnOk result (HasRoles roles.new.items (rs ++ roles_by l.now.objects.now obj s.now r.now BrAddr)) }
{
    match code(branch_target(l, obj, s, r)?) {
        None => Ok(()),
        Some(q) => {
            put(roles, offset(s, r), Role::To(q));
            Ok(())
        }
    }
}

/// The roles that a relocation of the text gives.
#[tactic(auto, unfolding(crate::specs::Program::roles_at))]
fn add_roles(
    roles: &mut Vec<Option<Role>>,
    l: &Linked<'_>,
    obj: u32,
    slots: &Slots,
    s: &Section,
    r: &Reloc,
) -> Result<(), NoMemory>
    requires linked { IsLinked l.now }
    requires there { obj < length l.now.objects.now }
    requires slots { AreSlots (object_at l.now.objects.now obj) slots.now }
    ensures length { length roles.new.items ≡ length roles.old.items }
    ensures roles { (rs : List (ℕ × AnyRole)) → HasRoles roles.old.items rs → OnOk result (HasRoles roles.new.items (rs ++ roles_at l.now.objects.now obj s.now r.now)) }
{
    match r.kind {
        RelocKind::Literal => add_literal(roles, l, obj, slots, s, r),
        RelocKind::GpDisp => add_pair(roles, l, obj, s, r),
        RelocKind::BrAddr => {
            if r.external {
                return add_branch(roles, l, obj, s, r);
            }
            Ok(())
        }
        _ => Ok(()),
    }
}

/// The roles that the relocations of the text give, by the numbers of its words.
#[tactic(auto, using(crate::proofs::Steps::joined_more), unfolding(crate::specs::Program::roles_in))]
pub(crate) fn roles_of(
    alloc: Global,
    l: &Linked<'_>,
    obj: u32,
    slots: &Slots,
    s: &Section,
    words: usize,
) -> Result<Vec<Option<Role>>, NoMemory>
    requires linked { IsLinked l.now }
    requires there { obj < length l.now.objects.now }
    requires slots { AreSlots (object_at l.now.objects.now obj) slots.now }
    ensures length { IfOk result (λ v. length v.items ≡ words) }
    ensures roles { IfOk result (λ v. HasRoles v.items (roles_in l.now.objects.now obj s.now)) }
{
    let mut roles = vec![in alloc; None; words]?;
    let relocs = s.relocs.as_slice();
    for k in 0..relocs.len() {
        let r = relocs[k];
        add_roles(&mut roles, l, obj, slots, s, &r)?;
    }
    Ok(roles)
}

/// What a word is by itself: a branch to where its displacement leads, or no more than its instruction.
pub(crate) fn own_role(obj: u32, s: &Section, off: u64) -> Result<Role, NoMemory>
    ensures { IfOk result (λ role. role ≡ role_of_its_own obj s.now off) }
{
    match branch_disp(instr(s, off)) {
        None => Ok(Role::Plain),
        Some(disp) => {
            let to = place(obj, own_target(off, disp))?;
            Ok(Role::To(to))
        }
    }
}
