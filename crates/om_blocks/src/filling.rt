// The blocks of a graph, by number.
ghost use Rattle.std.specs.Prelude.{◌≡◌, ◌<◌, ◌+◌, ◌^◌, ℕ, true, IsTrue, IfOk, Some};
ghost use Rattle.om_graph.specs.View.{Block as AnyBlock, is_live_block, block_of};
ghost use Rattle.om_graph.specs.Held.{IsGraph};
ghost use Rattle.om_blocks.specs.declared.exits.Exit.TheVariants.{Block as ToBlock};
ghost use Rattle.om_blocks.specs.IsFlow.{HasFlow};
ghost use Rattle.om_blocks.specs.Filling.{exit_number as number_of_exit, or_none, number_at_label, IsBlockFlow, AreFilled};

use crate::effects::effect_of;
use crate::exits::{Exit, exit_of, fall_of};
use om_flow::{FlowBlock, Transfer};
use om_graph::{BlockId, Graph};
use om_io::NoMemory;
use om_value::Place;
use std::alloc::Global;

// The number of the kept block of a label, or of none.
pub(crate) fn number_at(g: &Graph, label: Place, outside: u32) -> u32
    requires { (id : ℕ) → is_live_block g.now id ≡ true → id < outside }
    ensures { result ≡ number_at_label g.now outside label }
{
    match g.block(label) {
        Some(b) => b.number() as u32,
        None => outside,
    }
}

// The number of an exit: that of none, a block's, or the hub's.
fn exit_number(exit: Exit, outside: u32) -> u32
    requires small { outside + 1 < 2 ^ 32 }
    requires inside { (id : ℕ) → exit ≡ ToBlock id → id < outside }
    ensures { result ≡ number_of_exit outside exit }
{
    match exit {
        Exit::Nowhere => outside,
        Exit::Block(b) => b.number() as u32,
        Exit::ByRegister => outside + 1,
    }
}

fn number_or_none(b: Option<BlockId>, outside: u32) -> u32
    requires small { outside < 2 ^ 32 }
    requires inside { (id : ℕ) → b ≡ Some id → id < outside }
    ensures { result ≡ or_none outside b }
{
    match b {
        Some(b) => b.number() as u32,
        None => outside,
    }
}

// What the solvers ask of a block, where the number of each kept block is below `outside`: that is the number of none, and
// the next one the hub's.
fn block_flow(g: &Graph, b: BlockId, outside: u32) -> FlowBlock
    requires graph { IsGraph g.now }
    requires flow { HasFlow g.now }
    requires live { IsTrue (is_live_block g.now b) }
    requires small { outside + 1 < 2 ^ 32 }
    requires rows { (id : ℕ) → is_live_block g.now id ≡ true → id < outside }
    ensures { (x : AnyBlock) → block_of g.now b ≡ Some x → IsBlockFlow g.now outside x result }
{
    let last = g.last(b);
    let effect = effect_of(g, b);
    FlowBlock {
        first: exit_number(exit_of(g, &last), outside),
        second: number_or_none(fall_of(g, b, &last), outside),
        transfer: effect.transfer,
        reads: effect.reads,
        writes: effect.writes,
    }
}

// What the solvers ask of all blocks.
pub(crate) fn filled(alloc: Global, g: &Graph, outside: u32) -> Result<Vec<FlowBlock>, NoMemory>
    requires graph { IsGraph g.now }
    requires flow { HasFlow g.now }
    requires small { outside + 1 < 2 ^ 32 }
    requires rows { (id : ℕ) → is_live_block g.now id ≡ true → id < outside }
    ensures { IfOk result (λ v. AreFilled g.now outside g.now.blocks v.items) }
{
    let none = FlowBlock {
        first: outside,
        second: outside,
        transfer: Transfer::Keep,
        reads: 0,
        writes: 0,
    };
    let mut entries = vec![in alloc; none; outside as usize + 1]?;
    let mut next = g.first_block();
    while let Some(b) = next {
        entries[b.number()] = block_flow(g, b, outside);
        next = g.next_block(b);
    }
    Ok(entries)
}
