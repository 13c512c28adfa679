//! Calls by a register that holds a known place.
ghost use Rattle.std.specs.Prelude.{◌≡◌, ◌<◌, ℕ, IsTrue, None, Some, length, false};
ghost use Rattle.om_value.specs.declared.value.Place.{Place as AnyPlace};
ghost use Rattle.om_value.specs.declared.value.Target.TheVariants.{Code};
ghost use Rattle.om_graph.specs.declared.op.Op.{Op as AnyOp};
ghost use Rattle.om_graph.specs.declared.op.OpKind.TheVariants.{Lit};
ghost use Rattle.om_graph.specs.Left.{NoDirect};
ghost use Rattle.om_graph.specs.View.{Block as AnyBlock, Node, Has, block_of, is_live_op, op_of};
ghost use Rattle.om_passes.specs.Passed.{IsOfAProgram, Passes};
ghost use Rattle.om_uses.specs.Parts.{IsNearly, IsUsesOf, Kept};
ghost use Rattle.om_calls.specs.Blocks.{IsBlockPassed};
ghost use Rattle.om_calls.specs.Known.{AreUsesAt, IsTaken, IsUntaken, NoDirectIn};

use crate::ends::{PlaceCall, ended_by, register_call};
use crate::reach::in_reach;
use om_graph::{BlockId, Graph, OpId, OpKind};
use om_uses::Uses;
use om_value::{Place, Target};

// The place in code whose address an op loads into a register other than r31.
fn loaded_code(kind: &OpKind) -> Option<Place>
    ensures some { (q : AnyPlace) → result ≡ Some q → (r : ℕ) × (rb : ℕ)
        × (kind.now ≡ Lit r rb (Code q)) × (r < 31) }
    ensures none { result ≡ None → (r rb : ℕ) (q : AnyPlace)
        → kind.now ≡ Lit r rb (Code q) → r ≡ 31 }
{
    match *kind {
        OpKind::Lit {
            ra,
            target: Target::Code(q),
            ..
        } => { if ra.num() < 31 { Some(q) } else { None } }
        _ => None,
    }
}

// That place, where the word that ends the block reads what the op loads, and a branch at `at` reaches it.
fn taken_from(g: &Graph, u: &Uses, o: OpId, at: Place) -> Option<Place>
    requires live { IsTrue (is_live_op g.now o) }
    requires at { at.obj < length g.now.counts }
    requires codes { (n : AnyOp) (r rb : ℕ) (q : AnyPlace) → op_of g.now o ≡ Some n
        → n.kind ≡ Lit r rb (Code q) → q.obj < length g.now.counts }
    ensures some { (n : AnyOp) (q : AnyPlace) → op_of g.now o ≡ Some n → result ≡ Some q
        → IsTaken u.now g.now.counts at o n.kind q }
    ensures none { (n : AnyOp) → op_of g.now o ≡ Some n → result ≡ None
        → IsUntaken u.now g.now.counts at o n.kind }
{
    let op = g.op(o);
    let Some(place) = loaded_code(&op.kind) else {
        return None;
    };
    if !in_reach(g, at, place) {
        return None;
    }
    if u.read_by_last(o) { Some(place) } else { None }
}

// The place that the word that ends a block takes from a load of its address, where a branch at `at` reaches it.
fn known_place(g: &Graph, u: &Uses, b: BlockId, at: Place) -> Option<Place>
    requires program { IsOfAProgram g.now }
    requires uses { AreUsesAt u.now g.now b }
    requires at { at.obj < length g.now.counts }
    ensures some { (x : AnyBlock) (q : AnyPlace) → block_of g.now b ≡ Some x → result ≡ Some q
        → (n : Node) × Has x.ops n × IsTaken u.now g.now.counts at n.id n.op.kind q }
    ensures none { (x : AnyBlock) → block_of g.now b ≡ Some x → result ≡ None → (n : Node)
        → Has x.ops n → IsUntaken u.now g.now.counts at n.id n.op.kind }
{
    g.is_graph();
    let mut next = g.first_op(b);
    while let Some(o) = next {
        if let Some(place) = taken_from(g, u, o, at) {
            return Some(place);
        }
        next = g.next_op(o);
    }
    None
}

// Makes the call at the end of a block direct, where its place is known and in reach. Whether it changed anything.
fn direct_block(g: &mut Graph, u: &Uses, b: BlockId) -> bool
    requires program { IsOfAProgram g.old }
    requires uses { AreUsesAt u.now g.old b }
    ensures passed { IsBlockPassed NoDirectIn b result g.old g.new }
    ensures near { (k : Kept) → IsNearly g.old k → IsNearly g.new k }
{
    g.is_numbered();
    let last = g.last(b);
    let Some(call) = register_call(&last) else {
        return false;
    };
    let Some(to) = known_place(g, u, b, call.at) else {
        return false;
    };
    g.set_last(
        b,
        ended_by(PlaceCall {
            at: call.at,
            ra: call.ra,
            to,
        }),
    );
    true
}

/// Makes each call by a register direct whose register holds a known place that a branch reaches: the register was last
/// written in the call's block by a load of the place's address. The uses are those of the graph. True comes exactly where
/// something changed; where it is false no such call is left. It takes no memory.
pub fn direct(g: &mut Graph, u: &Uses) -> bool
    requires program { IsOfAProgram g.old }
    requires uses { IsUsesOf g.old u.now }
    ensures passed { Passes result g.old g.new }
    ensures near { IsNearly g.new u.now }
    ensures nothing { result ≡ false → NoDirect g.new }
{
    let mut changed = false;
    let mut next = g.first_block();
    while let Some(b) = next {
        changed |= direct_block(g, u, b);
        next = g.next_block(b);
    }
    changed
}
