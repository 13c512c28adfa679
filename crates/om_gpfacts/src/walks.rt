//! What r29 holds inside a block, by what was found for the block's start.
ghost use Rattle.std.specs.Prelude.{◌≡◌, ◌↔◌, List, IsTrue};
ghost use Rattle.om_prog.specs.Act.{Word};
ghost use Rattle.om_prog.specs.Facts.{IsFact, fact_behind};
ghost use Rattle.om_prog.specs.View.{ProgramView};
ghost use Rattle.om_graph.specs.View.{Block as AnyBlock, is_live_block, Has};
ghost use Rattle.om_graph.specs.Run.{block_words, last_words, rev_onto, graph_script};
ghost use Rattle.om_blocks.specs.IsFlow.{HasFlow};
ghost use Rattle.om_blocks.specs.Found.{seen, facts_in};
ghost use Rattle.om_gpfacts.specs.Inside.{table_or_any, IsBehindOp};

use crate::facts::GpFacts;
use om_blocks::transfer_of;
use om_flow::{Fact, Transfer};
use om_graph::{BlockId, Graph, OpKind};

// The fact behind the low half of a pair, where this one was found at the block's start.
fn set_table(start: Fact, table: u32) -> Fact
    ensures { result ≡ table_or_any start table }
{
    match start {
        Fact::Any => Fact::Any,
        _ => Fact::Table(table),
    }
}

/// The fact on r29 behind an op of a block, where `start` was found for the block's start and `before` holds in front of the
/// op, whose object has the table. In a block to which no walk comes each table is a fact, but behind a write of r29 by
/// another op than the low half of a pair none is.
pub fn fact_behind_op(start: Fact, before: Fact, kind: &OpKind, table: u32) -> Fact
    ensures { IsBehindOp kind.now table start before result }
{
    match transfer_of(kind, table) {
        Transfer::Keep => before,
        Transfer::SetTable(t) => set_table(start, t),
        Transfer::SetUnknown => Fact::Unknown,
    }
}

/// Whether r29 holds a table's global pointer where this fact was found. Where no walk comes each table is a fact.
pub fn is_fact(fact: Fact, table: u32) -> bool
    ensures { IsTrue result ↔ IsFact (seen fact) table }
{
    match fact {
        Fact::Any => true,
        Fact::Table(t) => t == table,
        Fact::Unknown => false,
    }
}

/// The fact on r29 in front of the word that ends a block, by those found for the starts of blocks; where no word ends it,
/// the fact behind its ops. It takes no memory.
pub fn fact_before_last(g: &Graph, f: &GpFacts, b: BlockId) -> Fact
    requires flow { HasFlow g.now }
    requires live { IsTrue (is_live_block g.now b) }
    ensures { (p : ProgramView) (x : AnyBlock) (bf : List Word) → Has g.now.blocks x → x.id ≡ b
        → rev_onto bf (last_words x.last) ≡ block_words x
        → fact_behind (graph_script p g.now) (facts_in g.now f.now x.label) bf ≡ seen result }
{
    g.is_graph();
    let start = f.fact(b);
    let table = g.table(g.label(b).obj);
    let mut fact = start;
    let mut next = g.first_op(b);
    while let Some(o) = next {
        let op = g.op(o);
        fact = fact_behind_op(start, fact, &op.kind, table);
        next = g.next_op(o);
    }
    fact
}
