//! Calls that go past a pair that sets r29 to what it holds.
ghost use Rattle.std.specs.Prelude.{◌≡◌, IsTrue, None, Some, false};
ghost use Rattle.om_value.specs.declared.value.Place.{Place as AnyPlace};
ghost use Rattle.om_prog.specs.Valid.{IsProgram};
ghost use Rattle.om_prog.specs.View.{ProgramView};
ghost use Rattle.om_blocks.specs.Found.{facts_in};
ghost use Rattle.om_graph.specs.Checks.{GpChecked};
ghost use Rattle.om_graph.specs.Left.{NoEnter};
ghost use Rattle.om_graph.specs.Run.{graph_script};
ghost use Rattle.om_graph.specs.View.{Block as AnyBlock, block_of, is_live_block};
ghost use Rattle.om_passes.specs.OneEdit.{MayGoOn};
ghost use Rattle.om_passes.specs.Passed.{IsOfAProgram, Passes};
ghost use Rattle.om_uses.specs.Parts.{IsNearly, Kept};
ghost use Rattle.om_calls.specs.Blocks.{IsBlockPassed};
ghost use Rattle.om_calls.specs.Ends.{bsr_of};
ghost use Rattle.om_calls.specs.Entries.{MayEnter, NoEnterIn};

use crate::ends::{PlaceCall, ended_by, place_call};
use crate::openings::{is_closed_opening, place_behind};
use crate::reach::in_reach;
use om_gpfacts::{GpFacts, fact_before_last, is_fact};
use om_graph::{BlockId, Graph};
use om_value::Place;

// r29, which holds the global pointer.
const GP: u8 = 29;

// The place past the pair to which the call that ends a block may go.
fn place_past(g: &Graph, f: &GpFacts, b: BlockId, call: &PlaceCall) -> Option<Place>
    requires program { IsOfAProgram g.now }
    requires live { IsTrue (is_live_block g.now b) }
    requires ends { (x : AnyBlock) → block_of g.now b ≡ Some x → bsr_of x.last ≡ Some call.now }
    ensures some { (x : AnyBlock) (q : AnyPlace) → block_of g.now b ≡ Some x → result ≡ Some q
        → MayEnter g.now f.now x call.now q }
    ensures none { (x : AnyBlock) → block_of g.now b ≡ Some x → result ≡ None
        → NoEnterIn f.now g.now x }
{
    if call.ra.num() == GP {
        return None;
    }
    let Some(opening) = g.block(call.to) else {
        return None;
    };
    if !is_closed_opening(g, opening) {
        return None;
    }
    let second = place_behind(call.to);
    let past = place_behind(second);
    if !in_reach(g, call.at, past) {
        return None;
    }
    let fact = fact_before_last(g, f, b);
    let table = g.table(call.to.obj);
    if is_fact(fact, table) {
        Some(past)
    } else {
        None
    }
}

// Lets the call at the end of a block go past the pair that it calls, where it may. Whether it changed anything.
fn enter_block(g: &mut Graph, f: &GpFacts, b: BlockId) -> bool
    requires program { IsOfAProgram g.old }
    requires live { IsTrue (is_live_block g.old b) }
    requires facts { (p : ProgramView)
        → GpChecked (graph_script p g.old) (facts_in g.old f.now) g.old }
    ensures passed { IsBlockPassed (NoEnterIn f.now) b result g.old g.new }
    ensures near { (k : Kept) → IsNearly g.old k → IsNearly g.new k }
    ensures facts { (p : ProgramView)
        → GpChecked (graph_script p g.new) (facts_in g.new f.now) g.new }
{
    g.is_numbered();
    let last = g.last(b);
    let Some(call) = place_call(&last) else {
        return false;
    };
    let Some(to) = place_past(g, f, b, &call) else {
        return false;
    };
    g.set_last(
        b,
        ended_by(PlaceCall {
            at: call.at,
            ra: call.ra,
            to,
        }),
    );
    true
}

/// Lets each call of a place at which a closed pair sets r29 go past the pair, where r29 holds that already: the fact in
/// front of the call is the table of the pair's object, the call's link register is not r29, and it reaches the place past
/// the pair. The facts pass the check of the graph, and still do. True comes exactly where something changed; where it is
/// false no such call is left. It takes no memory.
pub fn enter(g: &mut Graph, f: &GpFacts) -> bool
    requires program { IsOfAProgram g.old }
    requires facts { (p : ProgramView) → IsProgram p → MayGoOn p g.old
        → GpChecked (graph_script p g.old) (facts_in g.old f.now) g.old }
    ensures passed { Passes result g.old g.new }
    ensures near { (k : Kept) → IsNearly g.old k → IsNearly g.new k }
    ensures facts { (p : ProgramView)
        → GpChecked (graph_script p g.new) (facts_in g.new f.now) g.new }
    ensures nothing { result ≡ false → (p : ProgramView)
        → NoEnter (graph_script p g.new) (facts_in g.new f.now) g.new }
{
    let mut changed = false;
    let mut next = g.first_block();
    while let Some(b) = next {
        changed |= enter_block(g, f, b);
        next = g.next_block(b);
    }
    changed
}
