// Loads into r31 of near targets, where they are the last words of their texts.
ghost use Rattle.std.specs.Prelude.{◌≡◌, ◌↔◌, ◌<◌, ◌≤◌, ◌+◌, ◌%◌, ◌^◌, true, false, IsTrue, length};
ghost use Rattle.om_graph.specs.View.{is_live_op, is_live_block};
ghost use Rattle.om_graph.specs.Form.{text_size};
ghost use Rattle.om_graph.specs.Uses.{IsTextsLast};
ghost use Rattle.om_passes.specs.Passed.{IsOfAProgram};
ghost use Rattle.om_addr.specs.Idle.{Taking, IsLoadAt, IsIdle, IsOpIdle, IsBlockIdle, IsAllIdle, IsIdleDone};

use crate::loads::{Load, either};
use crate::near::pointer_of;
use crate::near_loads::{address_load, is_near};
use om_graph::{BlockId, Graph, OpId};
use om_layout::Layout;
use om_value::Place;

// Whether the word at a place is the last one of its text.
fn is_texts_last(g: &Graph, p: Place) -> bool
    requires object { p.obj < length g.now.counts }
    requires small { text_size g.now p.obj < 2 ^ 32 }
    requires aligned { p.off % 4 ≡ 0 }
    requires inside { p.off + 4 ≤ text_size g.now p.obj }
    ensures { IsTrue result ↔ IsTextsLast g.now p }
{
    let end = Place {
        obj: p.obj,
        off: u32::MAX,
    };
    g.index(end) - g.index(p) == 1
}

// Lets a load become LDA where it writes r31, its target is near, and it ends its text. Whether it did.
fn take_load(g: &mut Graph, lay: &Layout, load: &Load, place: Place) -> bool
    requires program { IsOfAProgram g.old }
    requires load { IsLoadAt g.old load.now place }
    ensures passed { Taking lay.now result g.old g.new }
    ensures nothing { result ≡ false → IsIdle lay.now g.new load.now place }
{
    if !load.from_slot {
        return false;
    }
    if load.ra.num() != 31 {
        return false;
    }
    let at = pointer_of(load, lay);
    if !is_near(load, at) {
        return false;
    }
    if !is_texts_last(g, place) {
        return false;
    }
    g.is_graph();
    g.is_numbered();
    let kind = address_load(load);
    g.replace(load.id, kind);
    true
}

// The same of an op, where it is a load of an address.
fn take_op(g: &mut Graph, lay: &Layout, o: OpId) -> bool
    requires program { IsOfAProgram g.old }
    requires live { IsTrue (is_live_op g.old o) }
    ensures passed { Taking lay.now result g.old g.new }
    ensures nothing { result ≡ false → IsOpIdle lay.now g.new o }
{
    let op = g.op(o);
    match Load::of(o, &op) {
        Some(load) => take_load(g, lay, &load, op.place),
        None => false,
    }
}

// The same of the ops of a block in order. Whether it changed anything.
fn take_block(g: &mut Graph, lay: &Layout, b: BlockId) -> bool
    requires program { IsOfAProgram g.old }
    requires live { IsTrue (is_live_block g.old b) }
    ensures passed { Taking lay.now result g.old g.new }
    ensures nothing { result ≡ false → IsBlockIdle lay.now g.new b }
{
    g.is_graph();
    let mut changed = false;
    let mut next = g.first_op(b);
    while let Some(o) = next {
        let again = take_op(g, lay, o);
        changed = either(changed, again);
        g.is_graph();
        next = g.next_op(o);
    }
    changed
}

// The same of all ops in order. Whether it changed anything.
fn take_blocks(g: &mut Graph, lay: &Layout) -> bool
    requires program { IsOfAProgram g.old }
    ensures passed { Taking lay.now result g.old g.new }
    ensures nothing { result ≡ false → IsAllIdle lay.now g.new }
{
    g.is_graph();
    let mut changed = false;
    let mut next = g.first_block();
    while let Some(b) = next {
        let again = take_block(g, lay, b);
        changed = either(changed, again);
        g.is_graph();
        next = g.next_block(b);
    }
    changed
}

// Lets loads into r31 of near targets become LDA where they are the last words of their texts, over the layout as it is
// given. Whether it changed anything.
pub(crate) fn take_idle(g: &mut Graph, lay: &Layout) -> bool
    requires program { IsOfAProgram g.old }
    ensures passed { Taking lay.now result g.old g.new }
    ensures nothing { result ≡ false → IsIdleDone lay.now g.new }
{
    let changed = take_blocks(g, lay);
    g.is_graph();
    changed
}
