// All far loads of a graph.
ghost use Rattle.std.specs.Prelude.{◌≡◌, false, IsTrue};
ghost use Rattle.om_graph.specs.View.{is_live_op, is_live_block, block_of, block_with};
ghost use Rattle.om_blocks.specs.Found.{masks_in};
ghost use Rattle.om_live.specs.Outs.{AreOuts};
ghost use Rattle.om_passes.specs.Passed.{IsOfAProgram};
ghost use Rattle.om_addr.specs.Passing.{Reducing};
ghost use Rattle.om_addr.specs.Loads.{IsLoadOf};
ghost use Rattle.om_addr.specs.FarDone.{IsFarDone};
ghost use Rattle.om_addr.specs.Split.{KeepsEnds, IsOutAt, IsLoadSplit, IsOpSplit, IsBlockSplit, IsAllSplit};

use crate::far::split_address;
use crate::loads::{Load, either, has_bit};
use crate::near::pointer_of;
use om_graph::{BlockId, Graph, OpId};
use om_layout::Layout;
use om_live::Live;

// Lets a load of a block become LDAH with all of its uses, where all can. `out` are the registers that may be read from the
// end of the block on, by the masks. Whether it did.
fn split_load(g: &mut Graph, lay: &Layout, _live: &Live, b: BlockId, out: u32, load: &Load) -> bool
    requires program { IsOfAProgram g.old }
    requires load { IsLoadOf g.old load.now }
    requires live { IsTrue (is_live_block g.old b) }
    requires block { block_with g.old load.now.id ≡ block_of g.old b }
    requires out { IsOutAt g.old _live.now b out }
    ensures passed { Reducing lay.now _live.now result g.old g.new }
    ensures ends { KeepsEnds g.old g.new }
    ensures nothing { result ≡ false → IsLoadSplit lay.now out g.new load.now }
{
    if !load.from_slot || load.ra.num() == 31 {
        return false;
    }
    match pointer_of(load, lay) {
        Some(at) => split_address(g, b, load, &at, has_bit(out, load.ra)),
        None => false,
    }
}

// The same of an op, where it is a load of an address.
fn split_op(g: &mut Graph, lay: &Layout, live: &Live, b: BlockId, out: u32, o: OpId) -> bool
    requires program { IsOfAProgram g.old }
    requires block { IsTrue (is_live_block g.old b) }
    requires live { IsTrue (is_live_op g.old o) }
    requires inside { block_with g.old o ≡ block_of g.old b }
    requires out { IsOutAt g.old live.now b out }
    ensures passed { Reducing lay.now live.now result g.old g.new }
    ensures ends { KeepsEnds g.old g.new }
    ensures nothing { result ≡ false → IsOpSplit lay.now out g.new o }
{
    let op = g.op(o);
    match Load::of(o, &op) {
        Some(load) => split_load(g, lay, live, b, out, &load),
        None => false,
    }
}

// The same of the ops of a block in order. Whether it changed anything.
fn split_block(g: &mut Graph, lay: &Layout, live: &Live, b: BlockId, out: u32) -> bool
    requires program { IsOfAProgram g.old }
    requires live { IsTrue (is_live_block g.old b) }
    requires out { IsOutAt g.old live.now b out }
    ensures passed { Reducing lay.now live.now result g.old g.new }
    ensures ends { KeepsEnds g.old g.new }
    ensures nothing { result ≡ false → IsBlockSplit lay.now out g.new b }
{
    g.is_graph();
    let mut changed = false;
    let mut next = g.first_op(b);
    while let Some(o) = next {
        let again = split_op(g, lay, live, b, out, o);
        changed = either(changed, again);
        g.is_graph();
        next = g.next_op(o);
    }
    changed
}

// The same of all ops in order, where `outs` are those registers of the blocks, by their numbers. Whether it changed
// anything.
fn split_blocks(g: &mut Graph, lay: &Layout, live: &Live, outs: &[u32]) -> bool
    requires program { IsOfAProgram g.old }
    requires outs { AreOuts g.old (masks_in g.old live.now) g.old.blocks outs.now }
    ensures passed { Reducing lay.now live.now result g.old g.new }
    ensures nothing { result ≡ false → IsAllSplit lay.now outs.now g.new }
{
    g.is_graph();
    let mut changed = false;
    let mut next = g.first_block();
    while let Some(b) = next {
        let again = split_block(g, lay, live, b, outs[b.number()]);
        changed = either(changed, again);
        g.is_graph();
        next = g.next_block(b);
    }
    changed
}

// Lets far loads become LDAH with all of their uses, in order, where all can. `outs` are the registers that may be read from
// the ends of blocks on, by their numbers. Whether it changed anything.
pub(crate) fn split_all(g: &mut Graph, lay: &Layout, live: &Live, outs: &[u32]) -> bool
    requires program { IsOfAProgram g.old }
    requires outs { AreOuts g.old (masks_in g.old live.now) g.old.blocks outs.now }
    ensures passed { Reducing lay.now live.now result g.old g.new }
    ensures nothing { result ≡ false → IsFarDone lay.now live.now g.new }
{
    let changed = split_blocks(g, lay, live, outs);
    g.is_graph();
    changed
}
