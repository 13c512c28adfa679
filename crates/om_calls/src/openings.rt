// Opening pairs at the starts of blocks.
ghost use Rattle.std.specs.Prelude.{◌≡◌, ◌↔◌, ◌<◌, ◌+◌, ◌^◌, IsTrue, Some, true};
ghost use Rattle.om_prog.specs.Step.{next_place};
ghost use Rattle.om_graph.specs.Held.{IsGraph};
ghost use Rattle.om_graph.specs.Uses.{IsClosedOpening, IsTextsLast};
ghost use Rattle.om_graph.specs.View.{Block as AnyBlock, Has, block_of, is_live_block, ops_of};
ghost use Rattle.om_passes.specs.Passed.{IsOfAProgram};
ghost use Rattle.om_calls.specs.Openings.{is_gp_high, is_gp_low, is_high_at, is_low_at, two_of};

use crate::reach::is_texts_last;
use om_graph::{BlockId, Graph, Op, OpKind};
use om_value::Place;

fn is_high(kind: &OpKind) -> bool
    ensures { result ≡ is_gp_high kind.now }
{
    match *kind {
        OpKind::GpHi { ra, .. } => ra.num() == 29,
        _ => false,
    }
}

fn is_low(kind: &OpKind, high: Place) -> bool
    ensures { result ≡ is_gp_low high kind.now }
{
    match *kind {
        OpKind::GpLo { ra, rb, hi } => ra.num() == 29 && rb.num() == 29 && hi == high,
        _ => false,
    }
}

fn stands_high(op: &Op, at: Place) -> bool
    ensures { result ≡ is_high_at at op.now }
{
    op.place == at && is_high(&op.kind)
}

fn stands_low(op: &Op, at: Place, high: Place) -> bool
    ensures { result ≡ is_low_at high at op.now }
{
    op.place == at && is_low(&op.kind, high)
}

// The place of the next word.
pub(crate) fn place_behind(p: Place) -> Place
    requires { p.off + 4 < 2 ^ 32 }
    ensures { result ≡ next_place p }
{
    Place {
        obj: p.obj,
        off: p.off + 4,
    }
}

// The first two ops of a block.
fn first_two(g: &Graph, b: BlockId) -> Option<(Op, Op)>
    requires graph { IsGraph g.now }
    requires live { IsTrue (is_live_block g.now b) }
    ensures { (x : AnyBlock) → block_of g.now b ≡ Some x → result ≡ two_of (ops_of x) }
{
    let Some(first) = g.first_op(b) else {
        return None;
    };
    let Some(second) = g.next_op(first) else {
        return None;
    };
    Some((g.op(first), g.op(second)))
}

// Whether two ops, the first ones of a block with this label, are a closed pair at its start.
fn is_pair(g: &Graph, label: Place, high: &Op, low: &Op) -> bool
    requires program { IsOfAProgram g.now }
    requires block { (x : AnyBlock) × Has g.now.blocks x × (x.label ≡ label)
        × (two_of (ops_of x) ≡ Some (high.now, low.now)) }
    ensures { (x : AnyBlock) → Has g.now.blocks x → x.label ≡ label → x.opening ≡ true
        → two_of (ops_of x) ≡ Some (high.now, low.now)
        → (IsTrue result ↔ IsClosedOpening g.now x) }
{
    if !stands_high(high, label) {
        return false;
    }
    let second = place_behind(label);
    if !stands_low(low, second, label) {
        return false;
    }
    !is_texts_last(g, second)
}

// Whether a block begins with a closed opening pair.
pub(crate) fn is_closed_opening(g: &Graph, b: BlockId) -> bool
    requires program { IsOfAProgram g.now }
    requires live { IsTrue (is_live_block g.now b) }
    ensures { (x : AnyBlock) → block_of g.now b ≡ Some x
        → (IsTrue result ↔ IsClosedOpening g.now x) }
{
    g.is_graph();
    if !g.opening(b) {
        return false;
    }
    match first_two(g, b) {
        Some((high, low)) => is_pair(g, g.label(b), &high, &low),
        None => false,
    }
}
