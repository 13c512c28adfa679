// The tables of ops, blocks and loads, and room in them.
ghost use Rattle.std.specs.Prelude.{◌≡◌, ◌<◌, ◌^◌, length, IsTrue, OnOk, IfOk};
ghost use Rattle.om_uses.specs.Parts.{no_block};
ghost use Rattle.om_uses.specs.Tables.{IsLonger, IsPadded, AreOwned};

use om_graph::OpId;
use om_io::NoMemory;
use om_value::Target;

// What is kept of an op: the registers that it reads and writes, as bits, the op behind it in its block, or itself where
// none is, and the block's number.
#[derive(Clone, Copy)]
pub(crate) struct OpUses {
    pub(crate) reads: u32,
    pub(crate) writes: u32,
    pub(crate) next: OpId,
    pub(crate) block: u32,
}

// What is kept of a block: the registers that its end reads and writes, as bits, and where its loads stand and how many
// they are.
#[derive(Clone, Copy)]
pub(crate) struct BlockUses {
    pub(crate) reads: u32,
    pub(crate) writes: u32,
    pub(crate) start: u32,
    pub(crate) count: u32,
}

// The target of a load, and the number of the block that the place belongs to.
#[derive(Clone, Copy)]
pub(crate) struct Load {
    pub(crate) target: Target,
    pub(crate) block: u32,
}

// What is kept of a block that is none of the graph's.
pub(crate) fn no_uses() -> BlockUses
    ensures { result ≡ no_block }
{
    BlockUses {
        reads: 0,
        writes: 0,
        start: 0,
        count: 0,
    }
}

// Makes room for the block of a number. `NoMemory` is also the answer where the number does not fit 32 bits.
#[tactic(auto, using(crate::proofs::Fresh::padded_itself, crate::proofs::Fresh::padded_more))]
pub(crate) fn extend_blocks(blocks: &mut Vec<BlockUses>, number: usize) -> Result<(), NoMemory>
    ensures same { IsPadded no_block blocks.old.items blocks.new.items }
    ensures room { OnOk result (number < length blocks.new.items) }
    ensures small { OnOk result (number < 2 ^ 32) }
{
    if number >= u32::MAX as usize {
        return Err(NoMemory);
    }
    while blocks.len() <= number {
        blocks.push(no_uses())?;
    }
    Ok(())
}

// Makes room for an op.
#[tactic(auto, using(crate::proofs::Fresh::longer_itself, crate::proofs::Fresh::longer_more))]
pub(crate) fn extend_ops(ops: &mut Vec<OpUses>, o: OpId) -> Result<(), NoMemory>
    ensures same { IsLonger ops.old.items ops.new.items }
    ensures room { OnOk result (o < length ops.new.items) }
{
    let number = o.number();
    while ops.len() <= number {
        ops.push(OpUses {
            reads: 0,
            writes: 0,
            next: o,
            block: 0,
        })?;
    }
    Ok(())
}

// Whether so many places from one on belong to a block.
fn are_own(loads: &[Load], start: u32, count: u32, block: u32) -> bool
    ensures { IsTrue result → AreOwned loads.now start count block }
{
    let end = start as usize + count as usize;
    if loads.len() < end {
        return false;
    }
    for at in start as usize..end {
        if loads[at].block != block {
            return false;
        }
    }
    true
}

// Adds places for so many loads of a block behind all others, and tells where they begin. `NoMemory` is also the answer
// where that does not fit 32 bits.
fn add_loads(loads: &mut Vec<Load>, count: u32, block: u32) -> Result<u32, NoMemory>
    ensures same { IsLonger loads.old.items loads.new.items }
    ensures room { IfOk result (λ at. AreOwned loads.new.items at count block) }
{
    let start = loads.len();
    if start >= u32::MAX as usize {
        return Err(NoMemory);
    }
    for _ in 0..count {
        loads.push(Load {
            target: Target::Num(0),
            block,
        })?;
    }
    Ok(start as u32)
}

// Where so many loads of a block have room: in its own places, which begin at `start`, or in new ones.
#[tactic(auto, using(crate::proofs::Fresh::longer_itself))]
pub(crate) fn admit_loads(
    loads: &mut Vec<Load>,
    start: u32,
    count: u32,
    block: u32,
) -> Result<u32, NoMemory>
    ensures same { IsLonger loads.old.items loads.new.items }
    ensures room { IfOk result (λ at. AreOwned loads.new.items at count block) }
{
    if are_own(loads.as_slice(), start, count, block) {
        return Ok(start);
    }
    add_loads(loads, count, block)
}
