// Masks that go down as words are deleted.
ghost use Rattle.std.specs.Prelude.{◌≡◌, ◌<◌, ◌^◌, ℕ, true, false, IsTrue, IfOk, Some, length, get_or, slice_set};
ghost use Rattle.std.specs.Int.{bit_at};
ghost use Rattle.om_graph.specs.Held.{IsGraph};
ghost use Rattle.om_graph.specs.View.{is_live_block};
ghost use Rattle.om_blocks.specs.IsFlow.{HasFlow};
ghost use Rattle.om_blocks.specs.declared.exits.Exit.TheVariants.{Block as ToBlock};
ghost use Rattle.om_blocks.specs.Found.{all_registers};
ghost use Rattle.om_live.specs.Outs.{exit_mask, fall_mask};
ghost use Rattle.om_dead.specs.Lowering.{IsCopy, Holds, IsClosed, AreLive};

use om_blocks::{Exit, exit_of, fall_of};
use om_graph::{BlockId, Graph};
use om_io::NoMemory;
use om_live::Live;
use std::alloc::Global;

// The registers that may be read from the starts of blocks on, and from their ends on, by the numbers of the blocks.
#[derive(Drop)]
pub(crate) struct Masks {
    pub(crate) starts: Vec<u32>,
    pub(crate) ends: Vec<u32>,
}

pub(crate) fn bit(r: u32) -> u32
    requires { r < 32 }
    ensures { result ≡ 2 ^ r }
{
    1 << r
}

// Whether a register is in a mask.
pub(crate) fn is_in(mask: u32, r: u32) -> bool
    requires { r < 32 }
    ensures has { result ≡ true → bit_at mask r ≡ 1 }
    ensures lacks { result ≡ false → bit_at mask r ≡ 0 }
{
    mask & bit(r) != 0
}

// The masks of the starts of kept blocks.
pub(crate) fn starts_of(alloc: Global, g: &Graph, l: &Live) -> Result<Vec<u32>, NoMemory>
    requires { IsGraph g.now }
    ensures { IfOk result (λ v. IsCopy g.now l.now v.items) }
{
    let rows = g.rows();
    let mut starts = vec![in alloc; 0x7FFF_FFFF; rows]?;
    let mut next = g.first_block();
    while let Some(b) = next {
        starts[b.number()] = l.mask(b);
        next = g.next_block(b);
    }
    Ok(starts)
}

impl Masks {
    pub(crate) fn start(&self, b: BlockId) -> u32
        requires { b < length self.now.starts.items }
        ensures { result ≡ get_or self.now.starts.items b all_registers }
    {
        self.starts[b.number()]
    }

    pub(crate) fn end(&self, b: BlockId) -> u32
        requires { b < length self.now.ends.items }
        ensures { result ≡ get_or self.now.ends.items b 0 }
    {
        self.ends[b.number()]
    }

    fn set_start(&mut self, b: BlockId, mask: u32)
        requires { b < length self.old.starts.items }
        ensures starts { self.new.starts.items ≡ slice_set self.old.starts.items b mask }
        ensures ends { self.new.ends ≡ self.old.ends }
    {
        self.starts[b.number()] = mask;
    }

    // Those where the word that ends a block goes.
    fn at_exit(&self, b: BlockId, exit: &Exit) -> u32
        requires own { b < length self.now.ends.items }
        requires there { (id : ℕ) → exit.now ≡ ToBlock id → id < length self.now.starts.items }
        ensures { result ≡ exit_mask self.now.starts.items (get_or self.now.ends.items b 0) exit.now }
    {
        match *exit {
            Exit::Nowhere => 0,
            Exit::Block(n) => self.start(n),
            Exit::ByRegister => self.end(b),
        }
    }

    // Those of the block into which a block falls.
    fn at_fall(&self, next: Option<BlockId>) -> u32
        requires { (id : ℕ) → next ≡ Some id → id < length self.now.starts.items }
        ensures { result ≡ fall_mask self.now.starts.items next }
    {
        match next {
            Some(n) => self.start(n),
            None => 0,
        }
    }

    // Finds again what may be read from the end of a block on.
    pub(crate) fn find_end(&mut self, g: &Graph, b: BlockId)
        requires graph { IsGraph g.now }
        requires flow { HasFlow g.now }
        requires live { IsTrue (is_live_block g.now b) }
        requires holds { Holds g.now self.old.starts.items self.old.ends.items }
        ensures { Holds g.now self.new.starts.items self.new.ends.items }
    {
        let last = g.last(b);
        let end = self.at_exit(b, &exit_of(g, &last)) | self.at_fall(fall_of(g, b, &last));
        self.ends[b.number()] = end;
    }

    // Takes a register out of the masks of the starts of blocks that hand it on among themselves alone.
    pub(crate) fn lower(&mut self, g: &Graph, blocks: &[BlockId], r: u32)
        requires graph { IsGraph g.now }
        requires flow { HasFlow g.now }
        requires register { r < 31 }
        requires live { AreLive g.now blocks.now }
        requires holds { Holds g.now self.old.starts.items self.old.ends.items }
        requires closed { IsClosed g.now self.old.starts.items self.old.ends.items r blocks.now }
        ensures { Holds g.now self.new.starts.items self.new.ends.items }
    {
        let _ = g;
        for b in blocks {
            let mask = self.start(*b);
            self.set_start(*b, mask & !bit(r));
        }
    }
}
