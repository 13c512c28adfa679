//! The registers that may be read from the start of each block on.
ghost use Rattle.std.specs.Prelude.{◌≡◌, ◌<◌, ◌≤◌, ◌+◌, ◌^◌, ℕ, List, length, get_or, OnOk, IfOk};
ghost use Rattle.om_flow.specs.Edges.{Edge};
ghost use Rattle.om_flow.specs.Seen.{edges_of, reads_of, writes_of, IsInside, FlowGoes};
ghost use Rattle.om_flow.specs.Chain.{source as source_number, sources, AreChains};
ghost use Rattle.om_flow.specs.Masks.{number_at, MasksSolved};
ghost use Rattle.om_flow.specs.Worklist.{AreMarks};
ghost use Rattle.om_flow.specs.MaskSteps.{MaskRaised, MaskSpread, AreBelow};

use crate::chains::{Chains, reversed};
use crate::parts::{Flow, FlowBlock};
use om_io::NoMemory;
use std::alloc::Global;

// The registers that a block writes. The hub writes none.
fn written(blocks: &[FlowBlock], block: u32) -> u32
    ensures { result ≡ number_at (writes_of blocks.now) block }
{
    let at = block as usize;
    if at < blocks.len() {
        blocks[at].writes
    } else {
        0
    }
}

// Adds to one block's mask what is live at its end, and queues the block where that changed the mask.
fn raise(
    masks: &mut Vec<u32>,
    work: &mut Vec<u32>,
    queued: &mut Vec<bool>,
    at: u32,
    live: u32,
    blocks: &[FlowBlock],
) -> Result<(), NoMemory>
    requires mask { at < length masks.old.items }
    requires mark { at < length queued.old.items }
    requires marks { AreMarks queued.old.items work.old.items }
    ensures raised { OnOk result (MaskRaised (writes_of blocks.now) live at
        masks.old.items work.old.items masks.new.items work.new.items) }
    ensures marks { OnOk result (AreMarks queued.new.items work.new.items) }
    ensures size { OnOk result (length queued.new.items ≡ length queued.old.items) }
{
    let old = masks[at as usize];
    let new = old | (live & !written(blocks, at));
    if new == old {
        return Ok(());
    }
    masks[at as usize] = new;
    if queued[at as usize] {
        return Ok(());
    }
    work.push(at)?;
    queued[at as usize] = true;
    Ok(())
}

// The block from which an edge goes, or the hub.
fn source(edge: u32, n: usize) -> u32
    requires { n < 2 ^ 32 }
    ensures { result ≡ source_number n edge }
{
    let half = edge / 2;
    if (half as usize) < n { half } else { n as u32 }
}

// The same for each block from which control goes to one where `live` may be read.
fn spread(
    masks: &mut Vec<u32>,
    work: &mut Vec<u32>,
    queued: &mut Vec<bool>,
    blocks: &[FlowBlock],
    chains: &Chains,
    block: u32,
    live: u32,
) -> Result<(), NoMemory>
    requires small { length blocks.now < 2 ^ 32 }
    requires sizes { length masks.old.items ≡ length blocks.now + 1 }
    requires marked { length queued.old.items ≡ length blocks.now + 1 }
    requires marks { AreMarks queued.old.items work.old.items }
    requires block { block ≤ length blocks.now }
    requires chains { (ends : List ℕ)
        × AreChains ends (length blocks.now + 1) chains.now.heads.items chains.now.more.items }
    ensures marked { OnOk result (length queued.new.items ≡ length blocks.now + 1) }
    ensures marks { OnOk result (AreMarks queued.new.items work.new.items) }
    ensures spread { OnOk result (MaskSpread (writes_of blocks.now) live
        (sources (length blocks.now) chains.now.more.items (get_or chains.now.heads.items block 0))
        masks.old.items work.old.items masks.new.items work.new.items) }
{
    let mut link = chains.heads[block as usize];
    while link > 0 {
        let edge = link - 1;
        raise(
            masks,
            work,
            queued,
            source(edge, blocks.len()),
            live,
            blocks,
        )?;
        link = chains.more[edge as usize];
    }
    Ok(())
}

// What the blocks read before they write it, and the hub.
fn first_masks(alloc: Global, blocks: &[FlowBlock]) -> Result<Vec<u32>, NoMemory>
    ensures { IfOk result (λ v. v.items ≡ reads_of blocks.now) }
{
    let mut masks = Vec::new(alloc);
    for b in blocks {
        masks.push(b.reads)?;
    }
    masks.push(0)?;
    Ok(masks)
}

// The numbers 0 to n, n first: what is added last is taken first.
fn all_numbers(alloc: Global, n: usize) -> Result<Vec<u32>, NoMemory>
    requires { n + 1 < 2 ^ 32 }
    ensures { IfOk result (λ v. AreBelow (n + 1) v.items) }
{
    let mut numbers = Vec::new(alloc);
    numbers.push(n as u32)?;
    for number in 0..n {
        numbers.push(number as u32)?;
    }
    Ok(numbers)
}

// One block's mask.
fn mask_of(masks: &[u32], block: u32) -> u32
    requires { block < length masks.now }
    ensures { result ≡ number_at masks.now block }
{
    masks[block as usize]
}

// The masks of the blocks and of the hub.
fn solve_edges(alloc: Global, flow: &Flow) -> Result<Vec<u32>, NoMemory>
    requires { IsInside flow.now }
    ensures { IfOk result (λ masks. MasksSolved (length flow.now.blocks.items + 1)
        (Edge (edges_of flow.now.blocks.items flow.now.lands.items))
        (reads_of flow.now.blocks.items) (writes_of flow.now.blocks.items) masks.items) }
{
    let blocks = flow.blocks.as_slice();
    let chains = reversed(alloc, blocks, flow.lands.as_slice())?;
    let mut masks = first_masks(alloc, blocks)?;
    let mut work = all_numbers(alloc, blocks.len())?;
    let mut queued = vec![in alloc; true; blocks.len() + 1]?;
    while let Some(block) = work.pop() {
        queued[block as usize] = false;
        let live = mask_of(masks.as_slice(), block);
        spread(
            &mut masks,
            &mut work,
            &mut queued,
            blocks,
            &chains,
            block,
            live,
        )?;
    }
    Ok(masks)
}

/// The registers that may be read from the start of each block on, by number and with the hub's behind them: bit r of a
/// mask is set exactly where some walk from the block's start reads register r before it writes it. A mask changes 32 times
/// at most, so this takes time in proportion to the edges. `NoMemory` comes for want of memory, and at more than 4 * 10^9
/// edges.
pub fn solve(alloc: Global, flow: &Flow) -> Result<Vec<u32>, NoMemory>
    requires { IsInside flow.now }
    ensures { IfOk result (λ masks. MasksSolved (length flow.now.blocks.items) (FlowGoes flow.now)
        (reads_of flow.now.blocks.items)
        (writes_of flow.now.blocks.items) masks.items) }
{
    let masks = solve_edges(alloc, flow)?;
    Ok(masks)
}
