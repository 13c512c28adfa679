// A test of the blocks at which jumps by a register may land, without memory.
ghost use Rattle.std.specs.Prelude.{◌↔◌, IsTrue};
ghost use Rattle.om_graph.specs.View.{Block as AnyBlock, Has};
ghost use Rattle.om_graph.specs.Kept.{Named};
ghost use Rattle.om_blocks.specs.IsFlow.{HasFlow};

use crate::unions::{BlockMask, union_at_landings};
use om_graph::{BlockId, Graph};

/// A test of blocks.
pub trait BlockTest {
    ghost use Rattle.std.specs.Prelude.{ℕ, ◌↔◌, IsTrue};

    ghost holds: { Self → ℕ → Type 0 };

    /// Whether it holds of a block.
    fn passes(&self, b: BlockId) -> bool
        ensures { IsTrue result ↔ holds self.now b };
}

// Bit 0 where a test does not hold.
#[derive(Drop)]
struct Failing<'a, T> {
    test: &'a T,
}

impl<T: BlockTest> BlockMask for Failing<'_, T> {
    ghost use Rattle.std.specs.Prelude.{◌≡◌};

    ghost lacks = { λ t b r. r ≡ 0 → T.holds t.test.now b };

    fn mask(&self, b: BlockId) -> u32 {
        if self.test.passes(b) { 0 } else { 1 }
    }
}

/// Whether a test holds of each block at which a jump by a register may land: the kept blocks of the roots, of the places
/// in code that kept words load, and behind kept words that write a link register. A block may be tested more than once.
/// It takes no memory.
pub fn passes_at_landings<T: BlockTest>(g: &Graph, test: &T) -> bool
    requires { HasFlow g.now }
    ensures { IsTrue result ↔
        ((n : AnyBlock) → Has g.now.blocks n → Named g.now n.label → T.holds test.now n.id) }
{
    union_at_landings(g, &Failing { test }) == 0
}
