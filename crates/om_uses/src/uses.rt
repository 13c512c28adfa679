//! Uses of results within blocks.
ghost use Rattle.std.specs.Prelude.{◌≡◌, ◌-◌, ◌<◌, ◌^◌, if◌then◌else◌, List, [], get_or, min, take, drop, IfOk, OnOk, OnErr, IsOk, IsTrue, Some};
ghost use Rattle.om_graph.specs.Held.{IsGraph};
ghost use Rattle.om_graph.specs.Numbers.{AreNumbered};
ghost use Rattle.om_graph.specs.View.{Node, Block as AnyBlock, GraphView, is_live_block, block_of, cleared};
ghost use Rattle.om_uses.specs.Parts.{IsUsesOf, IsNearly, no_block, op_at};
ghost use Rattle.om_uses.specs.Readers.{TellsNext, TellsReadLast, TellsAtEnd, loads_in, readers, writes, is_kept, first_of};
ghost use Rattle.om_uses.specs.Installed.{HasRoom, HasRoomFor, HaveRoom, IsRoomier, with_block, with_fresh, installed, AreCovered, count_loads, loads_kept};
ghost use Rattle.om_uses.specs.Results.{IsBehind, IsFreshOf, IsAddedFor};

use crate::blocks::{admit_ops, note_block};
use crate::scans::{has, lowest};
use crate::tables::{BlockUses, Load, OpUses, admit_loads, extend_blocks, no_uses};
use om_blocks::{last_reads, last_writes};
use om_graph::{BlockId, Graph, OpId};
use om_io::NoMemory;
use om_value::{Place, Target};
use std::alloc::Global;
use std::marker::Model;

/// The ops of each block of a graph with the registers that they read and write, and the targets of its loads. It takes 16
/// bytes an op, 16 a block and 32 a load, by the numbers of ops and blocks.
#[derive(Drop)]
pub struct Uses {
    alloc: Global,
    // By the numbers of ops.
    ops: Vec<OpUses>,
    // By the numbers of blocks.
    blocks: Vec<BlockUses>,
    // Those of each block behind one another.
    loads: Vec<Load>,
}

impl Model for Uses {
    ghost use Rattle.om_uses.specs.Parts.{Kept};

    ghost Value = { Kept };

    ghost view = { λ u. record { ops = u.ops.items; blocks = u.blocks.items; loads = u.loads.items } };
}

// A touched block, for which there is room.
#[derive(Clone, Copy)]
pub(crate) enum Fresh {
    // A kept one, and where its loads go.
    Stays { block: BlockId, start: u32 },
    // The number of a dropped one.
    Gone { number: usize },
}

// How often a target stands among loads.
fn count_of(loads: &[Load], t: Target) -> u64
    ensures { result ≡ min (count_loads t loads.now) (2 ^ 64 - 1) }
{
    let mut count: u64 = 0;
    for load in loads {
        if load.target == t {
            count = count.saturating_add(1);
        }
    }
    count
}

// The loads of a block.
fn loads_at<'a>(loads: &'a [Load], block: &BlockUses) -> &'a [Load]
    ensures { result.now ≡ take block.now.count (drop block.now.start loads.now) }
{
    let behind = &loads[(block.start as usize).min(loads.len())..];
    &behind[..(block.count as usize).min(behind.len())]
}

// How often a target stands among the loads of blocks.
fn count_blocks(loads: &[Load], blocks: &[BlockUses], t: Target) -> u64
    ensures { result ≡ min (loads_kept t loads.now blocks.now) (2 ^ 64 - 1) }
{
    let mut count: u64 = 0;
    for block in blocks {
        count = count.saturating_add(count_of(loads_at(loads, block), t));
    }
    count
}

impl Uses {
    // What is kept of an op; of one that is not known, that it stands alone.
    fn op(&self, o: OpId) -> OpUses
        ensures { result ≡ op_at self.now o }
    {
        let number = o.number();
        if number < self.ops.len() {
            self.ops[number]
        } else {
            OpUses {
                reads: 0,
                writes: 0,
                next: o,
                block: 0,
            }
        }
    }

    // What is kept of a block; of one that is not known, nothing.
    fn block(&self, number: u32) -> BlockUses
        ensures { result ≡ get_or self.now.blocks number no_block }
    {
        let number = number as usize;
        if number < self.blocks.len() {
            self.blocks[number]
        } else {
            no_uses()
        }
    }

    // The first op behind one that reads a register, if none between them writes it.
    fn reader_behind(&self, o: OpId, r: u32) -> Option<OpId>
        requires { r < 31 }
        ensures { (n : Node) (behind : List Node) → IsBehind self.now o n behind
            → result ≡ first_of (readers r behind) }
    {
        let mut at = o;
        for _ in 0..self.ops.len() {
            let next = self.op(at).next;
            if next == at {
                return None;
            }
            let op = self.op(next);
            if has(op.reads, r) {
                return Some(next);
            }
            if has(op.writes, r) {
                return None;
            }
            at = next;
        }
        None
    }

    // Whether no op behind one writes a register.
    fn is_kept_behind(&self, o: OpId, r: u32) -> bool
        requires { r < 31 }
        ensures { (n : Node) (behind : List Node) → IsBehind self.now o n behind → result ≡ is_kept r behind }
    {
        let mut at = o;
        for _ in 0..self.ops.len() {
            let next = self.op(at).next;
            if next == at {
                return true;
            }
            if has(self.op(next).writes, r) {
                return false;
            }
            at = next;
        }
        true
    }

    // The reader of a register behind another reader.
    fn reader_after(&self, o: OpId, r: u32) -> Option<OpId>
        requires { r < 31 }
        ensures { (n : Node) (behind : List Node) → IsBehind self.now o n behind
            → result ≡ first_of (if writes r n then [] else readers r behind) }
    {
        if has(self.op(o).writes, r) {
            return None;
        }
        self.reader_behind(o, r)
    }

    // Makes room for a kept block, and tells where its loads go.
    fn admit(&mut self, g: &Graph, b: BlockId) -> Result<u32, NoMemory>
        requires graph { IsGraph g.now }
        requires live { IsTrue (is_live_block g.now b) }
        ensures same { IsRoomier self.old self.new }
        ensures room { IfOk result (λ start. HasRoom g.now self.new b start) }
    {
        extend_blocks(&mut self.blocks, b.number())?;
        let count = admit_ops(&mut self.ops, g, b)?;
        let block = b.number() as u32;
        let start = self.block(block).start;
        let start = admit_loads(&mut self.loads, start, count, block)?;
        Ok(start)
    }

    // Makes room for a touched label's block, if the graph was made with one there.
    fn fresh_at(&mut self, g: &Graph, label: Place) -> Result<Option<Fresh>, NoMemory>
        requires graph { IsGraph g.now }
        requires numbers { AreNumbered g.now }
        ensures same { IsRoomier self.old self.new }
        ensures fresh { IfOk result (λ f. IsFreshOf g.now self.new label f) }
    {
        if let Some(block) = g.block(label) {
            let start = self.admit(g, block)?;
            return Ok(Some(Fresh::Stays { block, start }));
        }
        match g.number(label) {
            Some(number) => {
                extend_blocks(&mut self.blocks, number)?;
                Ok(Some(Fresh::Gone { number }))
            }
            None => Ok(None),
        }
    }

    // Adds that block to others.
    fn add_fresh(&mut self, g: &Graph, label: Place, fresh: &mut Vec<Fresh>) -> Result<(), NoMemory>
        requires graph { IsGraph g.now }
        requires numbers { AreNumbered g.now }
        ensures same { IsRoomier self.old self.new }
        ensures added { OnOk result (IsAddedFor g.now self.new label fresh.old.items fresh.new.items) }
    {
        match self.fresh_at(g, label)? {
            Some(block) => {
                fresh.push(block)?;
                Ok(())
            }
            None => Ok(()),
        }
    }

    // Makes room for all touched blocks.
    fn admit_touched(&mut self, g: &Graph) -> Result<Vec<Fresh>, NoMemory>
        requires graph { IsGraph g.now }
        requires numbers { AreNumbered g.now }
        ensures same { IsRoomier self.old self.new }
        ensures room { IfOk result (λ fs. HaveRoom g.now self.new fs.items) }
        ensures covered { IfOk result (λ fs. AreCovered g.now g.now.touched fs.items) }
        ensures untouched { g.now.touched ≡ [] → IsOk result }
    {
        let mut fresh = Vec::new(self.alloc);
        let mut next = g.next_touched(None);
        while let Some(label) = next {
            self.add_fresh(g, label, &mut fresh)?;
            next = g.next_touched(Some(label));
        }
        Ok(fresh)
    }

    // Notes a kept block.
    fn note(&mut self, g: &Graph, b: BlockId, start: u32)
        requires graph { IsGraph g.now }
        requires live { IsTrue (is_live_block g.now b) }
        requires room { HasRoom g.now self.old b start }
        ensures { (x : AnyBlock) → block_of g.now b ≡ Some x → self.new ≡ with_block self.old b x start }
    {
        let end = note_block(&mut self.ops, &mut self.loads, g, b, start);
        let last = g.last(b);
        self.blocks[b.number()] = BlockUses {
            reads: last_reads(&last),
            writes: last_writes(&last),
            start,
            count: (end - start as usize) as u32,
        };
    }

    // Notes a touched block.
    fn install(&mut self, g: &Graph, fresh: Fresh)
        requires graph { IsGraph g.now }
        requires room { HasRoomFor g.now self.old fresh }
        ensures { self.new ≡ with_fresh g.now fresh self.old }
    {
        match fresh {
            Fresh::Stays { block, start } => self.note(g, block, start),
            Fresh::Gone { number } => self.blocks[number] = no_uses(),
        }
    }

    // Notes touched blocks.
    fn install_all(&mut self, g: &Graph, fresh: Vec<Fresh>)
        requires graph { IsGraph g.now }
        requires room { HaveRoom g.now self.old fresh.items }
        ensures { self.new ≡ installed g.now fresh.items self.old }
    {
        for f in fresh {
            self.install(g, f);
        }
    }

    /// The uses of a graph.
    pub fn scratch(alloc: Global, g: &Graph) -> Result<Uses, NoMemory>
        ensures { IfOk result (λ u. IsUsesOf g.now u) }
    {
        g.is_graph();
        let mut uses = Uses {
            alloc,
            ops: Vec::new(alloc),
            blocks: Vec::new(alloc),
            loads: Vec::new(alloc),
        };
        let mut next = g.first_block();
        while let Some(b) = next {
            let start = uses.admit(g, b)?;
            uses.note(g, b, start);
            next = g.next_block(b);
        }
        Ok(uses)
    }

    /// Makes the uses those of the graph as it is now, by its touched blocks alone, and takes the marks away. All memory is
    /// taken before anything changes: after `NoMemory` the marks and the uses are as before. `NoMemory` comes only where a
    /// block is touched.
    #[tactic(auto, using(crate::proofs::Fresh::roomier_itself))]
    pub fn refresh(&mut self, g: &mut Graph) -> Result<(), NoMemory>
        requires { IsNearly g.old self.old }
        ensures uses { OnOk result (IsUsesOf g.new self.new) }
        ensures cleared { OnOk result (g.new ≡ cleared g.old) }
        ensures marks { OnErr result (g.new ≡ g.old) }
        ensures stays { OnErr result (IsRoomier self.old self.new) }
        ensures untouched { g.old.touched ≡ [] → IsOk result }
    {
        g.is_graph();
        g.is_numbered();
        let fresh = self.admit_touched(g)?;
        self.install_all(g, fresh);
        g.clear_touched();
        Ok(())
    }

    /// The readers of what an op wrote, in order: the first for None, else the one behind another. A reader is an op that
    /// reads the register, behind the op in its block and before the register is written again. None comes exactly where
    /// there is no further one. It takes no memory.
    pub fn next_reader(&self, def: OpId, after: Option<OpId>) -> Option<OpId>
        ensures { TellsNext self.now def after result }
    {
        let Some(r) = lowest(self.op(def).writes) else {
            return None;
        };
        match after {
            Some(reader) => self.reader_after(reader, r),
            None => self.reader_behind(def, r),
        }
    }

    /// Whether the word that ends its block reads what an op wrote. It takes no memory.
    pub fn read_by_last(&self, def: OpId) -> bool
        ensures { TellsReadLast self.now def result }
    {
        let op = self.op(def);
        match lowest(op.writes) {
            Some(r) => self.is_kept_behind(def, r) && has(self.block(op.block).reads, r),
            None => false,
        }
    }

    /// Whether no later word of its block writes the register that an op wrote. It takes no memory.
    pub fn reaches_end(&self, def: OpId) -> bool
        ensures { TellsAtEnd self.now def result }
    {
        let op = self.op(def);
        match lowest(op.writes) {
            Some(r) => self.is_kept_behind(def, r) && !has(self.block(op.block).writes, r),
            None => false,
        }
    }

    /// How many kept ops load the address of a target from its slot; no more than 2^64 - 1. It goes over all loads and takes
    /// no memory.
    pub fn count(&self, t: Target) -> u64
        ensures { (g : GraphView) → IsGraph g → IsUsesOf g self.now → result ≡ min (loads_in t g.blocks) (2 ^ 64 - 1) }
    {
        count_blocks(self.loads.as_slice(), self.blocks.as_slice(), t)
    }
}
