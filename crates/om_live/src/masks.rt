//! The masks, and their solver.
ghost use Rattle.std.specs.Prelude.{◌≡◌, false, IfOk, get_or};
ghost use Rattle.om_graph.specs.Held.{IsGraph};
ghost use Rattle.om_graph.specs.View.{GraphView, is_live_block};
ghost use Rattle.om_blocks.specs.IsFlow.{HasFlow};
ghost use Rattle.om_blocks.specs.Found.{all_registers};
ghost use Rattle.om_live.specs.Exact.{AreExact, OthersHaveAll, AreOfKept};

use om_blocks::flow_of;
use om_flow::masks;
use om_graph::{BlockId, Graph};
use om_io::NoMemory;
use std::alloc::Global;
use std::marker::Model;

/// The registers that may be read from the start of each block on, by the numbers of the blocks. It is seen as the list of
/// masks.
#[derive(Drop)]
pub struct Live {
    masks: Vec<u32>,
}

impl Model for Live {
    ghost use Rattle.std.specs.Prelude.{List, ℕ};

    ghost Value = { List ℕ };

    ghost view = { λ l. l.masks.items };
}

impl Live {
    /// The registers that may be read from a block's start on: bit r is register r. Of a block that the graph of `solve` did
    /// not have, since it was dropped before or added after, these are all but r31.
    pub fn mask(&self, b: BlockId) -> u32
        ensures mask { result ≡ get_or self.now b all_registers }
        ensures others { (g : GraphView) → OthersHaveAll g self.now →
            is_live_block g b ≡ false → result ≡ all_registers }
    {
        self.numbered(b.number())
    }

    pub(crate) fn numbered(&self, at: usize) -> u32
        ensures { result ≡ get_or self.now at all_registers }
    {
        if at < self.masks.len() {
            self.masks[at]
        } else {
            0x7FFF_FFFF
        }
    }
}

// The masks of all blocks of a graph of a program. Of numbers that are no kept block's nothing is said.
fn solve_numbers(alloc: Global, g: &Graph) -> Result<Live, NoMemory>
    requires graph { IsGraph g.now }
    requires flow { HasFlow g.now }
    ensures { IfOk result (λ l. AreExact g.now l) }
{
    let flow = flow_of(alloc, g)?;
    let masks = masks::solve(alloc, &flow)?;
    Ok(Live { masks })
}

// The same masks of the kept blocks, and all of r0 to r30 for each other number.
fn of_kept(alloc: Global, g: &Graph, found: &Live) -> Result<Live, NoMemory>
    requires { IsGraph g.now }
    ensures { IfOk result (λ l. AreOfKept g.now found.now l) }
{
    let rows = g.rows();
    let mut masks = vec![in alloc; 0x7FFF_FFFF; rows]?;
    let mut next = g.first_block();
    while let Some(b) = next {
        masks[b.number()] = found.mask(b);
        next = g.next_block(b);
    }
    Ok(Live { masks })
}

/// The masks of all blocks of a graph of a program. They pass `check`, and they are exact: bit r is set exactly where some
/// walk from the block's start reads register r before it writes it, and bit 31 never. Of a number that is no kept block's
/// the mask is all of r0 to r30. `NoMemory` comes for want of memory, and where the graph was made with more than 4 * 10^9
/// blocks.
pub fn solve(alloc: Global, g: &Graph) -> Result<Live, NoMemory>
    requires { HasFlow g.now }
    ensures exact { IfOk result (λ l. AreExact g.now l) }
    ensures others { IfOk result (λ l. OthersHaveAll g.now l) }
{
    g.is_graph();
    let found = solve_numbers(alloc, g)?;
    let live = of_kept(alloc, g, &found)?;
    Ok(live)
}
