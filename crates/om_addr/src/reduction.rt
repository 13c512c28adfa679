// The reduction of address loads.
ghost use Rattle.std.specs.Prelude.{◌≡◌, true, false, List, ℕ, IfSome, IsTrue};
ghost use Rattle.om_graph.specs.View.{is_live_op, is_live_block};
ghost use Rattle.om_passes.specs.Passed.{IsOfAProgram};
ghost use Rattle.om_addr.specs.Passing.{Reducing};
ghost use Rattle.om_addr.specs.Loads.{IsLoadOf};
ghost use Rattle.om_addr.specs.Near.{IsSaid, IsTame, NoBaseUseOf};
ghost use Rattle.om_addr.specs.Loads.{HasPointer};
ghost use Rattle.om_addr.specs.Done.{IsDone, IsLeft, IsOpDone, IsBlockDone, IsAllDone};
ghost use Rattle.om_addr.specs.NearDone.{IsNearDone};
ghost use Rattle.om_layout.specs.Layout.{LayoutView};

use crate::base_uses::take_pointers;
use crate::byte_uses::take_literals;
use crate::loads::{Load, either};
use crate::near::{Pointer, pointer_of};
use crate::near_loads::take_near;
use om_graph::{BlockId, Graph, OpId};
use om_layout::Layout;

// Lets base uses of a load of a pointer take the base of the load, where they can. Whether there was one.
fn take_bases(g: &mut Graph, load: &Load, at: Option<Pointer>) -> bool
    requires program { IsOfAProgram g.old }
    requires load { IsLoadOf g.old load.now }
    requires tame { IfSome at IsTame }
    requires pointer { IfSome at (λ q. HasPointer load.now) }
    ensures passed { (l : LayoutView) → IsSaid l load.now at → (masks : List ℕ) →
        Reducing l masks result g.old g.new }
    ensures nothing { (l : LayoutView) → IsSaid l load.now at → NoBaseUseOf l g.new load.now }
    ensures load { IsLoadOf g.new load.now }
{
    match at {
        Some(at) => take_pointers(g, load, &at),
        None => false,
    }
}

// Reduces a load that still reads the slot, and its byte uses. Whether it changed anything.
fn leave_slot(g: &mut Graph, load: &Load, at: Option<Pointer>) -> bool
    requires program { IsOfAProgram g.old }
    requires load { IsLoadOf g.old load.now }
    requires slot { load.now.from_slot ≡ true }
    ensures passed { (l : LayoutView) → IsSaid l load.now at → (masks : List ℕ) →
        Reducing l masks result g.old g.new }
    ensures nothing { (l : LayoutView) → IsSaid l load.now at → result ≡ false → IsLeft l g.new load.now }
{
    let byted = take_literals(g, load);
    let near = take_near(g, load, at);
    either(byted, near)
}

// Reduces a load and its uses. Whether it changed anything.
fn reduce_load(g: &mut Graph, lay: &Layout, load: &Load) -> bool
    requires program { IsOfAProgram g.old }
    requires load { IsLoadOf g.old load.now }
    ensures passed { (masks : List ℕ) → Reducing lay.now masks result g.old g.new }
    ensures nothing { result ≡ false → IsDone lay.now g.new load.now }
{
    let at = pointer_of(load, lay);
    let based = take_bases(g, load, at);
    if !load.from_slot {
        return based;
    }
    let left = leave_slot(g, load, at);
    either(based, left)
}

// Reduces an op of a block, where it is a load of an address. Whether it changed anything.
fn reduce_op(g: &mut Graph, lay: &Layout, o: OpId) -> bool
    requires program { IsOfAProgram g.old }
    requires live { IsTrue (is_live_op g.old o) }
    ensures passed { (masks : List ℕ) → Reducing lay.now masks result g.old g.new }
    ensures nothing { result ≡ false → IsOpDone lay.now g.new o }
{
    let op = g.op(o);
    match Load::of(o, &op) {
        Some(load) => reduce_load(g, lay, &load),
        None => false,
    }
}

// Reduces the loads of a block in order. Whether it changed anything.
fn reduce_block(g: &mut Graph, lay: &Layout, b: BlockId) -> bool
    requires program { IsOfAProgram g.old }
    requires live { IsTrue (is_live_block g.old b) }
    ensures passed { (masks : List ℕ) → Reducing lay.now masks result g.old g.new }
    ensures nothing { result ≡ false → IsBlockDone lay.now g.new b }
{
    g.is_graph();
    let mut changed = false;
    let mut next = g.first_op(b);
    while let Some(o) = next {
        let again = reduce_op(g, lay, o);
        changed = either(changed, again);
        g.is_graph();
        next = g.next_op(o);
    }
    changed
}

// Reduces all loads in order. Whether it changed anything.
fn reduce_blocks(g: &mut Graph, lay: &Layout) -> bool
    requires program { IsOfAProgram g.old }
    ensures passed { (masks : List ℕ) → Reducing lay.now masks result g.old g.new }
    ensures nothing { result ≡ false → IsAllDone lay.now g.new }
{
    g.is_graph();
    let mut changed = false;
    let mut next = g.first_block();
    while let Some(b) = next {
        let again = reduce_block(g, lay, b);
        changed = either(changed, again);
        g.is_graph();
        next = g.next_block(b);
    }
    changed
}

/// Reduces loads of addresses in order, over the layout as it is given: base uses of near pointers take the base of the
/// load, byte uses take literals, and near loads into other registers than r31 become LDA. Whether it changed anything.
/// Each changed block is marked as touched. It takes no memory.
pub fn reduce_near(g: &mut Graph, lay: &Layout) -> bool
    requires { IsOfAProgram g.old }
    ensures passed { (masks : List ℕ) → Reducing lay.now masks result g.old g.new }
    ensures nothing { result ≡ false → IsNearDone lay.now g.new }
{
    let changed = reduce_blocks(g, lay);
    g.is_graph();
    changed
}
