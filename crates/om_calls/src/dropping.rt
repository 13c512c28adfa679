// Pairs that set r29 to what it holds.
ghost use Rattle.std.specs.Prelude.{◌≡◌, ◌<◌, ℕ, IsTrue, Some, false};
ghost use Rattle.om_prog.specs.View.{ProgramView};
ghost use Rattle.om_graph.specs.View.{Block as AnyBlock, Has, is_live_block, deleted, first_op_of, next_op_of};
ghost use Rattle.om_graph.specs.Held.{block_ids};
ghost use Rattle.om_graph.specs.Run.{graph_script};
ghost use Rattle.om_graph.specs.Checks.{GpChecked};
ghost use Rattle.om_graph.specs.Left.{NoDrop};
ghost use Rattle.om_blocks.specs.Found.{facts_in};
ghost use Rattle.om_passes.specs.Passed.{IsOfAProgram, Passes};
ghost use Rattle.om_uses.specs.Parts.{IsNearly, Kept};
ghost use Rattle.om_calls.specs.Pairs.{DropsPair, OnPairs, IsPairStep, Moves, NoneSetsSameIn, ops_left};

use crate::pairs::{Walk, behind, closed_by};
use om_gpfacts::GpFacts;
use om_graph::{BlockId, Graph, OpId};

// Takes out a pair that sets what r29 holds in front of it.
fn drop_pair(g: &mut Graph, f: &GpFacts, high: OpId, low: OpId)
    requires program { IsOfAProgram g.old }
    requires checked { (p : ProgramView)
        → GpChecked (graph_script p g.old) (facts_in g.old f.now) g.old }
    requires pair { DropsPair g.old f.now high low }
    ensures is { g.new ≡ deleted (deleted g.old low) high }
    ensures step { IsPairStep g.old g.new }
    ensures facts { (p : ProgramView)
        → GpChecked (graph_script p g.new) (facts_in g.new f.now) g.new }
{
    g.is_graph();
    g.is_numbered();
    g.delete(low);
    g.is_graph();
    g.is_numbered();
    g.delete(high);
}

// The walk behind an op. Where the op closes a pair that sets what r29 holds in front of it, the pair is taken out.
fn walk_op(g: &mut Graph, f: &GpFacts, w: &Walk, o: OpId) -> Walk
    requires { OnPairs g.old f.now w.now (Some o) }
    ensures on { OnPairs g.new f.now result (next_op_of g.old o) }
    ensures moves { Moves g.old g.new w.now result }
    ensures block { result.block ≡ w.now.block }
    ensures fewer { ops_left g.new w.now.block (next_op_of g.old o) < ops_left g.old w.now.block (Some o) }
{
    let op = g.op(o);
    match closed_by(g, w, &op) {
        Some(high) => {
            drop_pair(g, f, high.op, o);
            Walk {
                block: w.block,
                start: w.start,
                table: w.table,
                fact: high.before,
                high: None,
                changed: true,
            }
        }
        None => behind(w, o, &op),
    }
}

// The walk at the start of a block.
fn walk_at(g: &Graph, f: &GpFacts, b: BlockId) -> Walk
    requires program { IsOfAProgram g.now }
    requires checked { (p : ProgramView)
        → GpChecked (graph_script p g.now) (facts_in g.now f.now) g.now }
    requires live { IsTrue (is_live_block g.now b) }
    ensures on { OnPairs g.now f.now result (first_op_of g.now b) }
    ensures block { result.block ≡ b }
    ensures changed { result.changed ≡ false }
{
    g.is_graph();
    let start = f.fact(b);
    Walk {
        block: b,
        start,
        table: g.table(g.label(b).obj),
        fact: start,
        high: None,
        changed: false,
    }
}

// Takes out the closed pairs of a block that set what r29 holds in front of them.
fn drop_in_block(g: &mut Graph, f: &GpFacts, b: BlockId) -> bool
    requires program { IsOfAProgram g.old }
    requires checked { (p : ProgramView)
        → GpChecked (graph_script p g.old) (facts_in g.old f.now) g.old }
    requires live { IsTrue (is_live_block g.old b) }
    ensures passed { Passes result g.old g.new }
    ensures ids { block_ids g.new.blocks ≡ block_ids g.old.blocks }
    ensures near { (k : Kept) → IsNearly g.old k → IsNearly g.new k }
    ensures facts { (p : ProgramView)
        → GpChecked (graph_script p g.new) (facts_in g.new f.now) g.new }
    ensures nothing { result ≡ false → NoneSetsSameIn g.new f.now b }
{
    let mut walk = walk_at(g, f, b);
    let mut next = g.first_op(b);
    while let Some(o) = next {
        next = g.next_op(o);
        walk = walk_op(g, f, &walk, o);
    }
    walk.changed
}

// The same in all blocks.
fn drop_in_blocks(g: &mut Graph, f: &GpFacts) -> bool
    requires program { IsOfAProgram g.old }
    requires checked { (p : ProgramView)
        → GpChecked (graph_script p g.old) (facts_in g.old f.now) g.old }
    ensures passed { Passes result g.old g.new }
    ensures near { (k : Kept) → IsNearly g.old k → IsNearly g.new k }
    ensures facts { (p : ProgramView)
        → GpChecked (graph_script p g.new) (facts_in g.new f.now) g.new }
    ensures nothing { result ≡ false → (b : AnyBlock) → Has g.new.blocks b
        → NoneSetsSameIn g.new f.now b.id }
{
    let mut changed = false;
    let mut next = g.first_block();
    while let Some(b) = next {
        changed |= drop_in_block(g, f, b);
        next = g.next_block(b);
    }
    changed
}

/// Takes out each closed pair of r29 that sets what r29 holds in front of it: the global pointer of the object's table, or
/// anything where no walk comes. A pair is closed where no word between its halves reads or writes r29, and neither half is
/// the last word of its text. The facts are those of the graph as it is, by `solve` or `check`, and they hold of the graph as
/// it is left. Whether it took out any; where it did not, no such pair is left, and the graph is as it was. It takes no memory.
pub fn drop_gp(g: &mut Graph, f: &GpFacts) -> bool
    requires program { IsOfAProgram g.old }
    requires checked { (p : ProgramView)
        → GpChecked (graph_script p g.old) (facts_in g.old f.now) g.old }
    ensures passed { Passes result g.old g.new }
    ensures near { (k : Kept) → IsNearly g.old k → IsNearly g.new k }
    ensures facts { (p : ProgramView)
        → GpChecked (graph_script p g.new) (facts_in g.new f.now) g.new }
    ensures nothing { result ≡ false → (p : ProgramView)
        → NoDrop (graph_script p g.new) (facts_in g.new f.now) g.new }
{
    drop_in_blocks(g, f)
}
