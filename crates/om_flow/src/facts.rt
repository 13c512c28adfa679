//! What r29 holds at the start of each block.
ghost use Rattle.std.specs.Prelude.{◌≡◌, ◌<◌, ◌≤◌, ◌+◌, [], ◌∷◌, length, get_or, OnOk, IfOk, IsTrue, ◌↔◌};
ghost use Rattle.om_flow.specs.Edges.{AllBelow};
ghost use Rattle.om_flow.specs.Seen.{edges_of, transfers_of, IsInside, FlowGoes};
ghost use Rattle.om_flow.specs.Edges.{Edge};
ghost use Rattle.om_flow.specs.Facts.{fact_at, transfer_at, sent, Allows, Solved};
ghost use Rattle.om_flow.specs.FactSteps.{joined, FactRaised, FactSpread};

use crate::parts::{Fact, Flow, FlowBlock, Transfer};
use om_io::NoMemory;
use std::alloc::Global;

/// The fact behind a block with this fact at its start. Any stays Any.
pub fn sent_by(transfer: Transfer, fact: Fact) -> Fact
    ensures { result ≡ sent transfer fact }
{
    match (transfer, fact) {
        (Transfer::Keep, f) => f,
        (_, Fact::Any) => Fact::Any,
        (Transfer::SetTable(t), _) => Fact::Table(t),
        (Transfer::SetUnknown, _) => Fact::Unknown,
    }
}

/// The least fact that two facts allow: Any allows all, and each fact Unknown.
pub fn join(f: Fact, g: Fact) -> Fact
    ensures { result ≡ joined f g }
{
    match (f, g) {
        (Fact::Any, g) => g,
        (f, Fact::Any) => f,
        (Fact::Table(t), Fact::Table(u)) if t == u => Fact::Table(t),
        _ => Fact::Unknown,
    }
}

/// Whether a fact at the end of a block allows one at the start of a block to which control goes from there.
pub fn allows(f: Fact, g: Fact) -> bool
    ensures { IsTrue result ↔ Allows f g }
{
    match (f, g) {
        (Fact::Any, _) => true,
        (_, Fact::Unknown) => true,
        (Fact::Table(t), Fact::Table(u)) => t == u,
        _ => false,
    }
}

// Raises one target's fact, and queues the target where that changed it.
fn raise(facts: &mut Vec<Fact>, work: &mut Vec<u32>, at: u32, out: Fact) -> Result<(), NoMemory>
    requires { at < length facts.old.items }
    ensures { OnOk result (FactRaised out at
        facts.old.items work.old.items facts.new.items work.new.items) }
{
    let old = facts[at as usize];
    let new = join(old, out);
    if new != old {
        facts[at as usize] = new;
        work.push(at)?;
    }
    Ok(())
}

// Raises the facts of two targets.
fn spread_pair(
    facts: &mut Vec<Fact>,
    work: &mut Vec<u32>,
    first: u32,
    second: u32,
    out: Fact,
) -> Result<(), NoMemory>
    requires { AllBelow (length facts.old.items) (first ∷ second ∷ []) }
    ensures { OnOk result (FactSpread out (first ∷ second ∷ [])
        facts.old.items work.old.items facts.new.items work.new.items) }
{
    raise(facts, work, first, out)?;
    raise(facts, work, second, out)?;
    Ok(())
}

// Raises each target's fact.
fn spread_all(
    facts: &mut Vec<Fact>,
    work: &mut Vec<u32>,
    targets: &[u32],
    out: Fact,
) -> Result<(), NoMemory>
    requires { AllBelow (length facts.old.items) targets.now }
    ensures { OnOk result (FactSpread out targets.now
        facts.old.items work.old.items facts.new.items work.new.items) }
{
    for target in targets {
        raise(facts, work, *target, out)?;
    }
    Ok(())
}

// Raises the fact of each block to which control goes from one, or from the hub.
fn spread(
    facts: &mut Vec<Fact>,
    work: &mut Vec<u32>,
    blocks: &[FlowBlock],
    lands: &[u32],
    block: u32,
    out: Fact,
) -> Result<(), NoMemory>
    requires block { block ≤ length blocks.now }
    requires inside { AllBelow (length facts.old.items)
        (get_or (edges_of blocks.now lands.now) block []) }
    ensures { OnOk result (FactSpread out (get_or (edges_of blocks.now lands.now) block [])
        facts.old.items work.old.items facts.new.items work.new.items) }
{
    let at = block as usize;
    if at < blocks.len() {
        let b = blocks[at];
        spread_pair(facts, work, b.first, b.second, out)?;
        return Ok(());
    }
    spread_all(facts, work, lands, out)?;
    Ok(())
}

// What a block does to r29. The hub leaves it.
fn transfer_of(blocks: &[FlowBlock], block: u32) -> Transfer
    ensures { result ≡ transfer_at (transfers_of blocks.now) block }
{
    let at = block as usize;
    if at < blocks.len() {
        blocks[at].transfer
    } else {
        Transfer::Keep
    }
}

// One block's fact.
fn fact_of(facts: &[Fact], block: u32) -> Fact
    requires { block < length facts.now }
    ensures { result ≡ fact_at facts.now block }
{
    facts[block as usize]
}

// The fact at a block's end.
fn end_fact(blocks: &[FlowBlock], facts: &[Fact], block: u32) -> Fact
    requires { block < length facts.now }
    ensures { result ≡
        sent (transfer_at (transfers_of blocks.now) block) (fact_at facts.now block) }
{
    sent_by(transfer_of(blocks, block), fact_of(facts, block))
}

// The facts at the starts of the blocks and of the hub.
fn solve_edges(alloc: Global, flow: &Flow, table: u32) -> Result<Vec<Fact>, NoMemory>
    requires { IsInside flow.now }
    ensures { IfOk result (λ facts. Solved (length flow.now.blocks.items + 1)
        (Edge (edges_of flow.now.blocks.items flow.now.lands.items))
        (transfers_of flow.now.blocks.items) flow.now.entry table facts.items) }
{
    let blocks = flow.blocks.as_slice();
    let lands = flow.lands.as_slice();
    let mut facts = vec![in alloc; Fact::Any; blocks.len() + 1]?;
    facts[flow.entry as usize] = Fact::Table(table);
    let mut work = Vec::new(alloc);
    work.push(flow.entry)?;
    while let Some(block) = work.pop() {
        let out = end_fact(blocks, facts.as_slice(), block);
        spread(&mut facts, &mut work, blocks, lands, block, out)?;
    }
    Ok(facts)
}

/// The facts at the starts of blocks, by number and with the hub's behind them, where control starts at the entry with the
/// global pointer of `table` in r29. They are exact: Any where no walk from the entry comes, Table where each that comes
/// leaves that table's global pointer, and else Unknown. A fact changes twice at most, so this takes time in proportion to
/// the edges. `NoMemory` comes for want of memory alone.
pub fn solve(alloc: Global, flow: &Flow, table: u32) -> Result<Vec<Fact>, NoMemory>
    requires { IsInside flow.now }
    ensures { IfOk result (λ facts. Solved (length flow.now.blocks.items) (FlowGoes flow.now)
        (transfers_of flow.now.blocks.items)
        flow.now.entry table facts.items) }
{
    let facts = solve_edges(alloc, flow, table)?;
    Ok(facts)
}
