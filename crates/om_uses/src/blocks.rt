// Walks over the ops of a block.
ghost use Rattle.std.specs.Prelude.{◌≡◌, ◌+◌, ◌<◌, ◌≤◌, ◌^◌, length, set, IsTrue, IfOk};
ghost use Rattle.om_graph.specs.Held.{IsGraph};
ghost use Rattle.om_graph.specs.View.{Block as AnyBlock, is_live_block, block_of};
ghost use Rattle.om_uses.specs.Parts.{load_of, loads_of, next_or, uses_of};
ghost use Rattle.om_uses.specs.Tables.{IsLonger, AreCounted, linked, stored};

use crate::tables::{Load, OpUses, extend_ops};
use om_blocks::{reads_of, writes_of};
use om_graph::{BlockId, Graph, OpId, OpKind};
use om_io::NoMemory;

// One more, if an op loads an address from its slot.
fn with_load(count: u32, kind: &OpKind) -> Result<u32, NoMemory>
    ensures more { IfOk result (λ n. n ≡ count + length (load_of kind.now)) }
    ensures few { IfOk result (λ n. n < 2 ^ 32) }
{
    match *kind {
        OpKind::Lit { .. } => {
            if count == u32::MAX {
                return Err(NoMemory);
            }
            Ok(count + 1)
        }
        OpKind::Plain(_) => Ok(count),
        OpKind::AddrLda { .. } => Ok(count),
        OpKind::AddrHi { .. } => Ok(count),
        OpKind::UseLo { .. } => Ok(count),
        OpKind::UseGp { .. } => Ok(count),
        OpKind::GpHi { .. } => Ok(count),
        OpKind::GpLo { .. } => Ok(count),
    }
}

// Makes room for the ops of a block, and counts those that load an address from its slot.
pub(crate) fn admit_ops(ops: &mut Vec<OpUses>, g: &Graph, b: BlockId) -> Result<u32, NoMemory>
    requires graph { IsGraph g.now }
    requires live { IsTrue (is_live_block g.now b) }
    ensures same { IsLonger ops.old.items ops.new.items }
    ensures room { IfOk result (λ n. (x : AnyBlock) → block_of g.now b ≡ Some x
        → AreCounted (length ops.new.items) n x.ops) }
    ensures few { IfOk result (λ n. n < 2 ^ 32) }
{
    let mut count = 0;
    let mut next = g.first_op(b);
    while let Some(o) = next {
        extend_ops(ops, o)?;
        count = with_load(count, &g.op(o).kind)?;
        next = g.next_op(o);
    }
    Ok(count)
}

// The op behind another, or that one where there is none.
fn or_itself(next: Option<OpId>, o: OpId) -> OpId
    ensures { result ≡ next_or o next }
{
    match next {
        Some(next) => next,
        None => o,
    }
}

// Notes an op, for which there is room.
fn note_op(ops: &mut Vec<OpUses>, o: OpId, kind: &OpKind, next: Option<OpId>, block: u32)
    ensures { ops.new.items ≡ set ops.old.items o (uses_of kind.now (next_or o next) block) }
{
    let number = o.number();
    let uses = OpUses {
        reads: reads_of(kind),
        writes: writes_of(kind),
        next: or_itself(next, o),
        block,
    };
    if number < ops.len() {
        ops[number] = uses;
    }
}

// Notes the target of an op at a place, if it loads an address from its slot, and tells which place is next.
fn note_load(loads: &mut Vec<Load>, at: usize, kind: &OpKind, block: u32) -> usize
    requires { at + length (load_of kind.now) ≤ length loads.old.items }
    ensures loads { loads.new.items ≡ stored at block (load_of kind.now) loads.old.items }
    ensures next { result ≡ at + length (load_of kind.now) }
{
    match *kind {
        OpKind::Lit { target, .. } => {
            loads[at] = Load { target, block };
            at + 1
        }
        OpKind::Plain(_) => at,
        OpKind::AddrLda { .. } => at,
        OpKind::AddrHi { .. } => at,
        OpKind::UseLo { .. } => at,
        OpKind::UseGp { .. } => at,
        OpKind::GpHi { .. } => at,
        OpKind::GpLo { .. } => at,
    }
}

// Notes the ops of a block, and from a place on the targets of its loads, for all of which there is room. Tells the place
// behind them.
pub(crate) fn note_block(
    ops: &mut Vec<OpUses>,
    loads: &mut Vec<Load>,
    g: &Graph,
    b: BlockId,
    start: u32,
) -> usize
    requires graph { IsGraph g.now }
    requires live { IsTrue (is_live_block g.now b) }
    requires small { b < 2 ^ 32 }
    requires room { (x : AnyBlock) → block_of g.now b ≡ Some x
        → start + length (loads_of x.ops) ≤ length loads.old.items }
    ensures ops { (x : AnyBlock) → block_of g.now b ≡ Some x
        → ops.new.items ≡ linked b x.ops ops.old.items }
    ensures loads { (x : AnyBlock) → block_of g.now b ≡ Some x
        → loads.new.items ≡ stored start b (loads_of x.ops) loads.old.items }
    ensures end { (x : AnyBlock) → block_of g.now b ≡ Some x → result ≡ start + length (loads_of x.ops) }
{
    let block = b.number() as u32;
    let mut at = start as usize;
    let mut next = g.first_op(b);
    while let Some(o) = next {
        let op = g.op(o);
        note_op(ops, o, &op.kind, g.next_op(o), block);
        at = note_load(loads, at, &op.kind, block);
        next = g.next_op(o);
    }
    at
}
