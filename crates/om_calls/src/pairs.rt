// A walk over the ops of a block for the closed pairs that set r29 to what it holds.
ghost use Rattle.std.specs.Prelude.{◌≡◌, ℕ, IsTrue, ◌↔◌, Some, None, false};
ghost use Rattle.om_prog.specs.Facts.{IsFact};
ghost use Rattle.om_graph.specs.Uses.{IsTextsLast};
ghost use Rattle.om_blocks.specs.Found.{seen};
ghost use Rattle.om_calls.specs.declared.pairs.High.{High as AnyHigh};
ghost use Rattle.om_calls.specs.Pairs.{is_high_half, low_half, touches_gp, high_then, WalksPast, Closes, IsInText};

use crate::reach::is_texts_last;
use om_blocks::{reads_of, writes_of};
use om_gpfacts::{Fact, fact_behind_op, is_fact};
use om_graph::{BlockId, Graph, Op, OpId, OpKind};
use om_value::Place;

// The high half of a pair of r29, where no op behind it has read or written r29 so far.
#[derive(Clone, Copy)]
pub(crate) struct High {
    pub(crate) op: OpId,
    pub(crate) place: Place,
    // What r29 holds in front of it.
    pub(crate) before: Fact,
}

// How far a block was walked.
#[derive(Clone, Copy)]
pub(crate) struct Walk {
    pub(crate) block: BlockId,
    // The fact on r29 at the block's start.
    pub(crate) start: Fact,
    // The table of the block's object.
    pub(crate) table: u32,
    // What r29 holds behind the ops so far.
    pub(crate) fact: Fact,
    // The high half that waits for its low half.
    pub(crate) high: Option<High>,
    // Whether a pair was taken out.
    pub(crate) changed: bool,
}

fn is_high(kind: &OpKind) -> bool
    ensures { result ≡ is_high_half kind.now }
{
    match *kind {
        OpKind::GpHi { ra, .. } => ra.num() == 29,
        _ => false,
    }
}

// The place of the high half, where an op is a low half that reads and writes r29.
fn low_of(kind: &OpKind) -> Option<Place>
    ensures { result ≡ low_half kind.now }
{
    match *kind {
        OpKind::GpLo { ra, rb, hi } => {
            if ra.num() != 29 {
                return None;
            }
            if rb.num() == 29 { Some(hi) } else { None }
        }
        _ => None,
    }
}

// Whether an op reads or writes r29.
fn touches(kind: &OpKind) -> bool
    ensures { result ≡ touches_gp kind.now }
{
    let masks = reads_of(kind) | writes_of(kind);
    (masks >> 29) % 2 == 1
}

fn high_behind(w: &Walk, o: OpId, op: &Op) -> Option<High>
    ensures { result ≡ high_then w.now o op.now }
{
    if is_high(&op.kind) {
        return Some(High {
            op: o,
            place: op.place,
            before: w.fact,
        });
    }
    if touches(&op.kind) { None } else { w.high }
}

// The walk behind an op that stays.
pub(crate) fn behind(w: &Walk, o: OpId, op: &Op) -> Walk
    ensures { WalksPast w.now o op.now result }
{
    Walk {
        block: w.block,
        start: w.start,
        table: w.table,
        fact: fact_behind_op(w.start, w.fact, &op.kind, w.table),
        high: high_behind(w, o, op),
        changed: w.changed,
    }
}

// Whether a pair may go: it sets the table that r29 holds in front of it, and neither half ends its text.
fn may_go(g: &Graph, high: &High, low: Place, table: u32) -> bool
    requires high { IsInText g.now high.now.place }
    requires low { IsInText g.now low }
    ensures fact { IsTrue result → IsFact (seen high.now.before) table }
    ensures high { IsTrue result → IsTextsLast g.now high.now.place → ⊥ }
    ensures low { IsTrue result → IsTextsLast g.now low → ⊥ }
    ensures stays { result ≡ false → IsFact (seen high.now.before) table
        → (IsTextsLast g.now high.now.place → ⊥) → (IsTextsLast g.now low → ⊥) → ⊥ }
{
    if !is_fact(high.before, table) {
        return false;
    }
    if is_texts_last(g, high.place) {
        return false;
    }
    !is_texts_last(g, low)
}

// The high half with which an op is a closed pair that sets what r29 holds in front of it.
pub(crate) fn closed_by(g: &Graph, w: &Walk, op: &Op) -> Option<High>
    requires high { (h : AnyHigh) → w.now.high ≡ Some h → IsInText g.now h.place }
    requires low { IsInText g.now op.now.place }
    ensures some { (h : AnyHigh) → result ≡ Some h → Closes g.now w.now op.now h }
    ensures none { result ≡ None → (h : AnyHigh) → Closes g.now w.now op.now h → ⊥ }
{
    let Some(hi) = low_of(&op.kind) else {
        return None;
    };
    let Some(high) = w.high else {
        return None;
    };
    if hi != high.place {
        return None;
    }
    if may_go(g, &high, op.place, w.table) {
        Some(high)
    } else {
        None
    }
}
