//! The registers that may be read from the end of each block on.
ghost use Rattle.std.specs.Prelude.{◌≡◌, IsTrue, IfOk};
ghost use Rattle.om_graph.specs.Held.{IsGraph};
ghost use Rattle.om_graph.specs.View.{Block as AnyBlock, is_live_block, Has};
ghost use Rattle.om_blocks.specs.IsFlow.{HasFlow};
ghost use Rattle.om_blocks.specs.Found.{masks_in};
ghost use Rattle.om_live.specs.Outs.{AreLanded, AreOuts, IsOut, exit_mask, fall_mask};

use crate::masks::Live;
use om_blocks::{BlockMask, Exit, exit_of, fall_of, union_at_landings};
use om_graph::{BlockId, Graph};
use om_io::NoMemory;
use std::alloc::Global;

// The masks, for the walk over landing places.
#[derive(Drop)]
struct Masks<'a> {
    live: &'a Live,
}

impl BlockMask for Masks<'_> {
    ghost use Rattle.std.specs.Prelude.{◌≡◌, get_or};
    ghost use Rattle.std.specs.Int.{bit_at};
    ghost use Rattle.om_blocks.specs.Found.{all_registers};

    ghost lacks = { λ t b r. bit_at (get_or t.live.now b all_registers) r ≡ 0 };

    fn mask(&self, b: BlockId) -> u32 {
        self.live.mask(b)
    }
}

// The registers that are in the mask of a block at which a jump by a register may land.
pub(crate) fn landed(g: &Graph, l: &Live) -> u32
    requires { HasFlow g.now }
    ensures { AreLanded g.now l.now result }
{
    union_at_landings(g, &Masks { live: l })
}

// Those in the mask of the block where the word that ends a block goes.
fn at_exit(l: &Live, exit: &Exit, landed: u32) -> u32
    ensures { result ≡ exit_mask l.now landed exit.now }
{
    match *exit {
        Exit::Nowhere => 0,
        Exit::Block(b) => l.mask(b),
        Exit::ByRegister => landed,
    }
}

// Those in the mask of the block into which a block falls.
fn at_fall(l: &Live, next: Option<BlockId>) -> u32
    ensures { result ≡ fall_mask l.now next }
{
    match next {
        Some(b) => l.mask(b),
        None => 0,
    }
}

// The registers that may be read from the end of a block on.
fn out_of(g: &Graph, l: &Live, landed: u32, b: BlockId) -> u32
    requires graph { IsGraph g.now }
    requires flow { HasFlow g.now }
    requires landed { AreLanded g.now l.now landed }
    requires live { IsTrue (is_live_block g.now b) }
    ensures { (x : AnyBlock) → Has g.now.blocks x → x.id ≡ b → IsOut g.now (masks_in g.now l.now) x.label result }
{
    let last = g.last(b);
    at_exit(l, &exit_of(g, &last), landed) | at_fall(l, fall_of(g, b, &last))
}

/// The registers that may be read from the end of each kept block on, by the numbers of the blocks. The masks are those of
/// the graph.
pub fn outs_of(alloc: Global, g: &Graph, l: &Live) -> Result<Vec<u32>, NoMemory>
    requires { HasFlow g.now }
    ensures { IfOk result (λ v. AreOuts g.now (masks_in g.now l.now) g.now.blocks v.items) }
{
    g.is_graph();
    let landed = landed(g, l);
    let mut outs = vec![in alloc; 0; g.rows()]?;
    let mut next = g.first_block();
    while let Some(b) = next {
        outs[b.number()] = out_of(g, l, landed, b);
        next = g.next_block(b);
    }
    Ok(outs)
}
