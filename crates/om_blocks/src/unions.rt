// The bits that blocks have at which jumps by a register may land, in one walk and without memory.
ghost use Rattle.std.specs.Prelude.{◌≡◌, ◌↔◌, ◌<◌, ◌+◌, ◌++◌, ◌∷◌, [], ◌^◌, ℕ, IsTrue, Some, flat_map};
ghost use Rattle.std.specs.Int.{bit_at};
ghost use Rattle.om_value.specs.declared.value.Place.{Place as AnyPlace};
ghost use Rattle.om_graph.specs.View.{Block as AnyBlock, is_live_block, block_of, Has};
ghost use Rattle.om_graph.specs.Held.{IsGraph};
ghost use Rattle.om_graph.specs.Kept.{Named};
ghost use Rattle.om_graph.specs.Run.{block_words, words};
ghost use Rattle.om_blocks.specs.IsFlow.{HasFlow};
ghost use Rattle.om_blocks.specs.Filling.{kind_code, link_place, places_of, places_behind, word_lands};
ghost use Rattle.om_blocks.specs.Landing.{IsUnion};

use crate::landing::{code_of, link_of};
use om_graph::{BlockId, Graph, Last, OpKind};
use om_value::Place;

/// A mask for each block.
pub trait BlockMask {
    ghost use Rattle.std.specs.Prelude.{ℕ, ◌≡◌, ◌↔◌};
    ghost use Rattle.std.specs.Int.{bit_at};

    ghost lacks: { Self → ℕ → ℕ → Type 0 };

    /// The mask of a block: which bits it lacks.
    fn mask(&self, b: BlockId) -> u32
        ensures { (r : ℕ) → (bit_at result r ≡ 0) ↔ lacks self.now b r };
}

// The mask of the kept block of a label, if there is one.
fn at_place<M: BlockMask>(g: &Graph, masks: &M, label: Place) -> u32
    requires { IsGraph g.now }
    ensures { IsUnion g.now (M.lacks masks.now) (label ∷ []) result }
{
    match g.block(label) {
        Some(b) => masks.mask(b),
        None => 0,
    }
}

// The same of the place that an op names.
fn at_code<M: BlockMask>(g: &Graph, masks: &M, kind: &OpKind) -> u32
    requires { IsGraph g.now }
    ensures { IsUnion g.now (M.lacks masks.now) (places_of (kind_code kind.now)) result }
{
    match code_of(kind) {
        Some(q) => at_place(g, masks, q),
        None => 0,
    }
}

// The same of the place behind the word that ends a block, where that writes a link register.
fn behind_link<M: BlockMask>(g: &Graph, masks: &M, last: &Last) -> u32
    requires graph { IsGraph g.now }
    requires fits { (at : AnyPlace) → link_place last.now ≡ Some at → at.off + 4 < 2 ^ 32 }
    ensures { IsUnion g.now (M.lacks masks.now) (places_behind (link_place last.now)) result }
{
    match link_of(last) {
        Some(at) => {
            let next = Place {
                obj: at.obj,
                off: at.off + 4,
            };
            at_place(g, masks, next)
        }
        None => 0,
    }
}

// The union of those of all places that a block names.
fn in_block<M: BlockMask>(g: &Graph, masks: &M, b: BlockId) -> u32
    requires graph { IsGraph g.now }
    requires flow { HasFlow g.now }
    requires live { IsTrue (is_live_block g.now b) }
    ensures { (x : AnyBlock) → block_of g.now b ≡ Some x →
        IsUnion g.now (M.lacks masks.now) (flat_map word_lands (block_words x)) result }
{
    let mut all = 0;
    let mut next = g.first_op(b);
    while let Some(o) = next {
        let op = g.op(o);
        all |= at_code(g, masks, &op.kind);
        next = g.next_op(o);
    }
    let last = g.last(b);
    all | behind_link(g, masks, &last)
}

// The same of all roots.
fn at_roots<M: BlockMask>(g: &Graph, masks: &M) -> u32
    requires { IsGraph g.now }
    ensures { IsUnion g.now (M.lacks masks.now) g.now.roots result }
{
    let mut all = 0;
    for root in g.roots() {
        all |= at_place(g, masks, *root);
    }
    all
}

// The same of all places that are named.
fn at_all<M: BlockMask>(g: &Graph, masks: &M) -> u32
    requires graph { IsGraph g.now }
    requires flow { HasFlow g.now }
    ensures { IsUnion g.now (M.lacks masks.now) (g.now.roots ++ flat_map word_lands (words g.now)) result }
{
    let mut all = at_roots(g, masks);
    let mut next = g.first_block();
    while let Some(b) = next {
        all |= in_block(g, masks, b);
        next = g.next_block(b);
    }
    all
}

/// The union of the masks of all blocks at which a jump by a register may land: the kept blocks of the roots, of the places
/// in code that kept words load, and behind kept words that write a link register. It is one walk, and takes no memory.
pub fn union_at_landings<M: BlockMask>(g: &Graph, masks: &M) -> u32
    requires { HasFlow g.now }
    ensures { (r : ℕ) → (bit_at result r ≡ 0) ↔
        ((n : AnyBlock) → Has g.now.blocks n → Named g.now n.label → M.lacks masks.now n.id r) }
{
    g.is_graph();
    at_all(g, masks)
}
