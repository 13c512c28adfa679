// Loads of addresses.
ghost use Rattle.std.specs.Prelude.{◌≡◌, ◌||◌, IsTrue, is_some};
ghost use Rattle.om_isa.specs.Registers.{mask_of};
ghost use Rattle.om_graph.specs.View.{is_live_op};
ghost use Rattle.om_blocks.specs.Effects.{kind_writes};
ghost use Rattle.om_uses.specs.Scans.{has_bit as mask_has};
ghost use Rattle.om_addr.specs.Passing.{set_if};
ghost use Rattle.om_addr.specs.Done.{load_at};

use om_blocks::writes_of;
use om_graph::{Graph, Op, OpId, OpKind};
use om_isa::Reg;
use om_value::Target;

// A load of an address, or what it became.
#[derive(Clone, Copy)]
pub(crate) struct Load {
    pub(crate) id: OpId,
    // The object in which it stands.
    pub(crate) obj: u32,
    // The register that it writes.
    pub(crate) ra: Reg,
    // The register that holds the global pointer.
    pub(crate) rb: Reg,
    pub(crate) target: Target,
    // Whether it still reads the slot.
    pub(crate) from_slot: bool,
}

impl Load {
    // The load that an op is.
    pub(crate) fn of(id: OpId, op: &Op) -> Option<Load>
        ensures { result ≡ load_at id op.now }
    {
        match op.kind {
            OpKind::Lit { ra, rb, target } => Some(Load {
                id,
                obj: op.place.obj,
                ra,
                rb,
                target,
                from_slot: true,
            }),
            OpKind::AddrLda { ra, rb, target } => Some(Load {
                id,
                obj: op.place.obj,
                ra,
                rb,
                target,
                from_slot: false,
            }),
            OpKind::Plain(_) => None,
            OpKind::AddrHi { .. } => None,
            OpKind::UseLo { .. } => None,
            OpKind::UseGp { .. } => None,
            OpKind::GpHi { .. } => None,
            OpKind::GpLo { .. } => None,
        }
    }
}

pub(crate) fn has_bit(mask: u32, r: Reg) -> bool
    ensures { result ≡ mask_has mask r }
{
    (mask >> r.num()) % 2 == 1
}

// Whether an op writes a register other than r31.
pub(crate) fn writes(kind: &OpKind, r: Reg) -> bool
    ensures { result ≡ mask_has (mask_of (kind_writes kind.now)) r }
{
    has_bit(writes_of(kind), r)
}

// Gives an op another kind, where there is one for it. Whether there was.
pub(crate) fn set(g: &mut Graph, o: OpId, kind: Option<OpKind>) -> bool
    requires { IsTrue (is_live_op g.old o) }
    ensures graph { g.new ≡ set_if g.old o kind }
    ensures changed { result ≡ is_some kind }
{
    match kind {
        Some(kind) => {
            g.replace(o, kind);
            true
        }
        None => false,
    }
}

pub(crate) fn either(a: bool, b: bool) -> bool
    ensures { result ≡ (a || b) }
{
    a || b
}
