//! Words whose results are dead.
ghost use Rattle.std.specs.Prelude.{◌≡◌, ◌<◌, ◌↔◌, ℕ, Bool, true, false, [], IsTrue, IfOk, OnOk, OnErr, Some, length, get_or};
ghost use Rattle.std.specs.Int.{w32, bit_not};
ghost use Rattle.std.specs.Int.Bits.{bit_and, bit_or};
ghost use Rattle.om_graph.specs.declared.op.Op.{Op as AnyOp};
ghost use Rattle.om_graph.specs.Held.{IsGraph};
ghost use Rattle.om_graph.specs.View.{op_of, is_live_block, is_live_op};
ghost use Rattle.om_graph.specs.Uses.{IsTextsLast};
ghost use Rattle.om_graph.specs.Outs.{outs_of as outs_by};
ghost use Rattle.om_graph.specs.Left.{NoDeadWord};
ghost use Rattle.om_blocks.specs.Found.{masks_in};
ghost use Rattle.om_live.specs.Exact.{AreExact};
ghost use Rattle.om_passes.specs.Passed.{IsOfAProgram};
ghost use Rattle.om_live.specs.Outs.{HasBits, AreOuts};
ghost use Rattle.om_dead.specs.Sweeps.{kind_address, InText, MayGo, HasToStay, IsSweptOp, IsSwept, IsSweeping, IsSweptBlock, AreOpsOf};
ghost use Rattle.om_dead.specs.Words.{IsWithoutDead, IsCleared, IsRewritten, AreDeleted};

use crate::following::Following;
use crate::masks::{Masks, starts_of};
use om_blocks::{last_reads, last_writes, reads_of, writes_of};
use om_graph::{BlockId, Graph, Last, Op, OpId, OpKind};
use om_io::NoMemory;
use om_live::{Live, outs_of, solve};
use om_value::Place;
use std::alloc::Global;

// What became of an op.
#[derive(Clone, Copy)]
struct SweptOp {
    deleted: bool,
    // The registers that may be read in front of it.
    live: u32,
    // Those that it read, where it was deleted.
    bases: u32,
}

// A block of which ops were deleted, and the registers that they read.
#[derive(Clone, Copy)]
pub(crate) struct Loss {
    pub(crate) number: usize,
    pub(crate) label: Place,
    pub(crate) bases: u32,
}

// Whether an op came from a load of an address or a half of a pair.
fn is_address(kind: &OpKind) -> bool
    ensures { result ≡ kind_address kind.now }
{
    match *kind {
        OpKind::Lit { .. } => true,
        OpKind::GpHi { .. } => true,
        OpKind::GpLo { .. } => true,
        OpKind::AddrLda { .. } => true,
        OpKind::AddrHi { .. } => true,
        OpKind::Plain(_) => false,
        OpKind::UseLo { .. } => false,
        OpKind::UseGp { .. } => false,
    }
}

// Whether a word is the last one of its text.
fn is_texts_last(g: &Graph, place: Place) -> bool
    requires { InText g.now place }
    ensures { IsTrue result ↔ IsTextsLast g.now place }
{
    let next = Place {
        obj: place.obj,
        off: place.off + 4,
    };
    let end = Place {
        obj: place.obj,
        off: u32::MAX,
    };
    g.index(next) == g.index(end)
}

// Whether an op may go, where these registers may be read behind it.
fn may_go(g: &Graph, op: &Op, live: u32) -> bool
    requires { InText g.now op.now.place }
    ensures goes { result ≡ true → (out : ℕ → Bool) → HasBits live out → MayGo g.now op.now out }
    ensures stays { result ≡ false → (out : ℕ → Bool) → HasBits live out → HasToStay g.now op.now out }
{
    if !is_address(&op.kind) {
        return false;
    }
    if writes_of(&op.kind) & live != 0 {
        return false;
    }
    !is_texts_last(g, op.place)
}

// The registers that may be read in front of words which read and write these, where some may be read behind them.
fn in_front(reads: u32, writes: u32, live: u32) -> u32
    ensures { result ≡ bit_or reads (bit_and live (bit_not w32 writes)) }
{
    reads | (live & !writes)
}

// Deletes an op where it may go, where these registers may be read behind it.
fn sweep_op(g: &mut Graph, o: OpId, live: u32) -> SweptOp
    requires of { IsOfAProgram g.old }
    requires live { IsTrue (is_live_op g.old o) }
    ensures { (x : AnyOp) → op_of g.old o ≡ Some x → IsSweptOp g.old g.new o x live result }
{
    g.is_graph();
    g.is_numbered();
    let op = g.op(o);
    if may_go(g, &op, live) {
        g.delete(o);
        return SweptOp {
            deleted: true,
            live,
            bases: reads_of(&op.kind),
        };
    }
    SweptOp {
        deleted: false,
        live: in_front(reads_of(&op.kind), writes_of(&op.kind), live),
        bases: 0,
    }
}

// Deletes the dead words of a block, whose ops these are, where `out` may be read from its end on. Whether there was one.
pub(crate) fn sweep_block(
    g: &mut Graph,
    ops: &mut Vec<OpId>,
    b: BlockId,
    out: u32,
    bases: &mut u32,
) -> bool
    requires sweeping { IsSweeping g.old b out }
    requires live { IsTrue (is_live_block g.old b) }
    requires ops { AreOpsOf g.old b ops.old.items }
    ensures empty { ops.new.items ≡ [] }
    ensures swept { IsSweptBlock g.old g.new b out result }
{
    g.is_graph();
    let last = g.last(b);
    let mut live = in_front(last_reads(&last), last_writes(&last), out);
    let mut deleted = false;
    while let Some(o) = ops.pop() {
        let swept = sweep_op(g, o, live);
        live = swept.live;
        deleted |= swept.deleted;
        *bases |= swept.bases;
    }
    deleted
}

// The ops of a block, in order, into a list that is empty.
pub(crate) fn list_ops(ops: &mut Vec<OpId>, g: &Graph, b: BlockId) -> Result<(), NoMemory>
    requires graph { IsGraph g.now }
    requires live { IsTrue (is_live_block g.now b) }
    requires empty { ops.old.items ≡ [] }
    ensures { OnOk result (AreOpsOf g.now b ops.new.items) }
{
    let mut next = g.first_op(b);
    while let Some(o) = next {
        ops.push(o)?;
        next = g.next_op(o);
    }
    Ok(())
}

// Notes a block of which ops were deleted that read these registers.
fn note(losses: &mut Vec<Loss>, g: &Graph, b: BlockId, bases: u32) -> Result<(), NoMemory>
    requires { IsTrue (is_live_block g.now b) }
{
    if bases == 0 {
        return Ok(());
    }
    losses.push(Loss {
        number: b.number(),
        label: g.label(b),
        bases,
    })?;
    Ok(())
}

// What may be read from the end of a block on.
fn end_of(outs: &[u32], b: BlockId) -> u32
    requires { b < length outs.now }
    ensures { result ≡ get_or outs.now b 0 }
{
    outs[b.number()]
}

// Deletes words that are dead by the masks of the graph, of which `outs` are computed. Whether there was one.
fn sweep(
    alloc: Global,
    g: &mut Graph,
    l: &Live,
    outs: &[u32],
    losses: &mut Vec<Loss>,
) -> Result<bool, NoMemory>
    requires of { IsOfAProgram g.old }
    requires exact { AreExact g.old l.now }
    requires outs { AreOuts g.old (masks_in g.old l.now) g.old.blocks outs.now }
    ensures swept { IfOk result (λ changed. IsSwept (masks_in g.old l.now) (outs_by g.old (masks_in g.old l.now)) g.old g.new changed) }
    ensures none { IfOk result (λ changed. changed ≡ false → NoDeadWord (outs_by g.old (masks_in g.old l.now)) g.old) }
    ensures stopped { OnErr result (IsRewritten g.old g.new) }
{
    g.is_graph();
    let mut ops = Vec::new(alloc);
    let mut changed = false;
    let mut next = g.first_block();
    while let Some(b) = next {
        list_ops(&mut ops, g, b)?;
        let out = end_of(outs, b);
        let mut bases = 0;
        changed |= sweep_block(g, &mut ops, b, out, &mut bases);
        note(losses, g, b, bases)?;
        next = g.next_block(b);
    }
    Ok(changed)
}

// Deletes words whose results are dead. Whether there was one.
fn delete_some(alloc: Global, g: &mut Graph) -> Result<bool, NoMemory>
    requires { IsOfAProgram g.old }
    ensures deleted { IfOk result (λ changed. AreDeleted changed g.old g.new) }
    ensures none { IfOk result (λ changed. changed ≡ false → IsWithoutDead g.new) }
    ensures stopped { OnErr result (IsRewritten g.old g.new) }
{
    g.is_graph();
    let live = solve(alloc, g)?;
    let ends = outs_of(alloc, g, &live)?;
    let starts = starts_of(alloc, g, &live)?;
    let mut losses = Vec::new(alloc);
    let changed = sweep(alloc, g, &live, ends.as_slice(), &mut losses)?;
    if !changed {
        return Ok(false);
    }
    let mut following = Following::of(alloc, g, Masks { starts, ends }, losses.as_slice())?;
    following.go_on(g)?;
    Ok(true)
}

/// Deletes the words that came from loads of addresses and from pairs and whose results are dead, until there is none but
/// last words of texts. Whether it changed anything. For want of memory it stops before that; meaning is kept then too.
pub fn delete_dead(alloc: Global, g: &mut Graph) -> Result<bool, NoMemory>
    requires { IsOfAProgram g.old }
    ensures cleared { IfOk result (λ changed. IsCleared changed g.old g.new) }
    ensures stopped { OnErr result (IsRewritten g.old g.new) }
{
    let mut changed = false;
    loop {
        let again = delete_some(alloc, g)?;
        if !again {
            return Ok(changed);
        }
        changed = true;
    }
}
