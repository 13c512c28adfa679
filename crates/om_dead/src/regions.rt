// Blocks that hand a register on among themselves alone.
ghost use Rattle.std.specs.Prelude.{◌≡◌, ◌⊎◌, ◌<◌, ◌++◌, [], ◌∷◌, ℕ, true, IsTrue, IfSome, IfOk, OnOk, Some, length, get_or};
ghost use Rattle.std.specs.Int.{bit_at};
ghost use Rattle.om_graph.specs.Held.{IsGraph};
ghost use Rattle.om_graph.specs.View.{Block as AnyBlock, Has, block_of, is_live_block};
ghost use Rattle.om_blocks.specs.declared.exits.Exit.TheVariants.{Block as ToBlock, ByRegister};
ghost use Rattle.om_blocks.specs.IsFlow.{HasFlow};
ghost use Rattle.om_blocks.specs.Found.{all_registers};
ghost use Rattle.om_dead.specs.Lowering.{Holds, HandsOnIn, IsClosed, AreLive, IsSpread};

use crate::masks::{Masks, is_in};
use om_blocks::{Exit, effect_of, exit_of, fall_of};
use om_graph::{BlockId, Graph};
use om_io::NoMemory;

// Blocks in the order in which they were found, and where among them a block of a number may be.
#[derive(Drop)]
pub(crate) struct Region {
    pub(crate) blocks: Vec<BlockId>,
    pub(crate) at: Vec<usize>,
}

impl Region {
    // Whether a block is among them.
    fn has(&self, b: BlockId) -> bool
        ensures { result ≡ true → Has self.now.blocks.items b }
    {
        let n = b.number();
        if n >= self.at.len() {
            return false;
        }
        let at = self.at[n];
        at < self.blocks.len() && self.blocks[at].number() == n
    }

    // Puts a block behind them.
    fn put(&mut self, b: BlockId) -> Result<(), NoMemory>
        ensures { OnOk result (self.new.blocks.items ≡ self.old.blocks.items ++ b ∷ []) }
    {
        let n = b.number();
        let at = self.blocks.len();
        self.blocks.push(b)?;
        if n < self.at.len() {
            self.at[n] = at;
        }
        Ok(())
    }

    // Puts a block there in whose mask a register is, unless it is there.
    fn add(&mut self, g: &Graph, m: &Masks, b: BlockId, r: u32) -> Result<(), NoMemory>
        requires live { IsTrue (is_live_block g.now b) }
        requires room { b < length m.now.starts.items }
        requires register { r < 32 }
        ensures spread { OnOk result (IsSpread g.now self.old.blocks.items self.new.blocks.items) }
        ensures there { OnOk result ((bit_at (get_or m.now.starts.items b all_registers) r ≡ 0) ⊎ Has self.new.blocks.items b) }
    {
        if !is_in(m.start(b), r) {
            return Ok(());
        }
        if self.has(b) {
            return Ok(());
        }
        self.put(b)
    }

    // The same with the block where the word that ends a block goes. Whether that is no jump by a register that may lead
    // to where the register is in a mask.
    fn add_exit(
        &mut self,
        g: &Graph,
        m: &Masks,
        b: BlockId,
        exit: &Exit,
        r: u32,
    ) -> Result<bool, NoMemory>
        requires own { b < length m.now.ends.items }
        requires live { (id : ℕ) → exit.now ≡ ToBlock id → IsTrue (is_live_block g.now id) }
        requires room { (id : ℕ) → exit.now ≡ ToBlock id → id < length m.now.starts.items }
        requires register { r < 32 }
        ensures spread { OnOk result (IsSpread g.now self.old.blocks.items self.new.blocks.items) }
        ensures there { OnOk result ((id : ℕ) → exit.now ≡ ToBlock id → (bit_at (get_or m.now.starts.items id all_registers) r ≡ 0) ⊎ Has self.new.blocks.items id) }
        ensures jump { IfOk result (λ t. t ≡ true → exit.now ≡ ByRegister → bit_at (get_or m.now.ends.items b 0) r ≡ 0) }
    {
        match *exit {
            Exit::Nowhere => Ok(true),
            Exit::Block(n) => {
                self.add(g, m, n, r)?;
                Ok(true)
            }
            Exit::ByRegister => Ok(!is_in(m.end(b), r)),
        }
    }

    // The same with the block into which a block falls.
    fn add_fall(
        &mut self,
        g: &Graph,
        m: &Masks,
        next: Option<BlockId>,
        r: u32,
    ) -> Result<(), NoMemory>
        requires live { IfSome next (λ id. IsTrue (is_live_block g.now id)) }
        requires room { (id : ℕ) → next ≡ Some id → id < length m.now.starts.items }
        requires register { r < 32 }
        ensures spread { OnOk result (IsSpread g.now self.old.blocks.items self.new.blocks.items) }
        ensures there { OnOk result ((id : ℕ) → next ≡ Some id → (bit_at (get_or m.now.starts.items id all_registers) r ≡ 0) ⊎ Has self.new.blocks.items id) }
    {
        match next {
            Some(n) => self.add(g, m, n, r),
            None => Ok(()),
        }
    }

    // Adds the blocks in whose masks a register is and to which a block hands it on. Whether the block does not read it,
    // and no jump by a register hands it on.
    fn look(&mut self, g: &Graph, m: &Masks, b: BlockId, r: u32) -> Result<bool, NoMemory>
        requires graph { IsGraph g.now }
        requires flow { HasFlow g.now }
        requires live { IsTrue (is_live_block g.now b) }
        requires register { r < 31 }
        requires holds { Holds g.now m.now.starts.items m.now.ends.items }
        ensures spread { OnOk result (IsSpread g.now self.old.blocks.items self.new.blocks.items) }
        ensures hands { IfOk result (λ t. t ≡ true → (x : AnyBlock) → Has g.now.blocks x → x.id ≡ b →
            HandsOnIn g.now m.now.starts.items m.now.ends.items r self.new.blocks.items x) }
    {
        let effect = effect_of(g, b);
        if is_in(effect.reads, r) {
            return Ok(false);
        }
        if is_in(effect.writes, r) {
            return Ok(true);
        }
        let last = g.last(b);
        self.add_fall(g, m, fall_of(g, b, &last), r)?;
        let left = self.add_exit(g, m, b, &exit_of(g, &last), r)?;
        Ok(left)
    }

    // From a block on all those that a register is handed on to. Whether none of them reads it, and there are no more
    // than so many.
    pub(crate) fn spread(
        &mut self,
        g: &Graph,
        m: &Masks,
        b: BlockId,
        r: u32,
        most: usize,
    ) -> Result<bool, NoMemory>
        requires graph { IsGraph g.now }
        requires flow { HasFlow g.now }
        requires live { IsTrue (is_live_block g.now b) }
        requires register { r < 31 }
        requires holds { Holds g.now m.now.starts.items m.now.ends.items }
        ensures live { OnOk result (AreLive g.now self.new.blocks.items) }
        ensures closed { IfOk result (λ t. t ≡ true →
            IsClosed g.now m.now.starts.items m.now.ends.items r self.new.blocks.items) }
    {
        self.blocks.clear();
        self.put(b)?;
        for i in 0..most {
            if i >= self.blocks.len() {
                return Ok(true);
            }
            let next = self.blocks[i];
            let hands = self.look(g, m, next, r)?;
            if !hands {
                return Ok(false);
            }
        }
        Ok(false)
    }
}
