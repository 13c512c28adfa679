// What registers have the high half of within a block.
ghost use Rattle.std.specs.Prelude.{◌≡◌, Some, slice_set};
ghost use Rattle.om_encode.specs.Written.{noted};

use om_graph::OpKind;
use om_isa::Reg;
use om_value::Target;

/// What a load that became LDAH gives the high half of, and the least displacement of its uses, by which it was chosen.
#[derive(Clone, Copy)]
pub(crate) struct High {
    pub(crate) target: Target,
    pub(crate) least: i16,
}

// Notes that a register has a high half.
fn put(highs: &mut [Option<High>; 32], ra: Reg, high: High)
    ensures { highs.new ≡ slice_set highs.old ra (Some high) }
{
    highs[ra.num() as usize] = Some(high);
}

/// Notes what an op gives the high half of, if it is a load that became LDAH.
pub(crate) fn note(highs: &mut [Option<High>; 32], kind: &OpKind)
    ensures { highs.new ≡ noted highs.old kind.now }
{
    match *kind {
        OpKind::AddrHi {
            ra,
            rb: _,
            target,
            least,
        } => put(highs, ra, High { target, least }),
        _ => {}
    }
}
