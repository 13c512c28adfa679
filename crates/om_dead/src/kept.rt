//! The blocks that a run may come to, and those that it may not.
ghost use Rattle.std.specs.Prelude.{◌≡◌, ◌<◌, ◌+◌, ◌^◌, ℕ, true, false, Some, length, get_or, IsTrue, IfOk, OnOk, OnErr};
ghost use Rattle.om_value.specs.declared.value.Place.{Place as AnyPlace};
ghost use Rattle.om_graph.specs.View.{Block as AnyBlock, is_live_block, block_of, labelled, dropped};
ghost use Rattle.om_graph.specs.Held.{IsGraph};
ghost use Rattle.om_graph.specs.Kept.{IsInKeptSet, KeptInBlocks};
ghost use Rattle.om_graph.specs.Left.{OnlyKeptSet};
ghost use Rattle.om_blocks.specs.declared.exits.Exit.TheVariants.{Block as ToBlock};
ghost use Rattle.om_blocks.specs.IsFlow.{HasFlow};
ghost use Rattle.om_blocks.specs.Exits.{last_exit, next_fallen};
ghost use Rattle.om_blocks.specs.Filling.{kind_code, link_place, places_of, places_behind};
ghost use Rattle.om_uses.specs.Parts.{Kept, IsNearly};
ghost use Rattle.om_passes.specs.Passed.{Passes, IsStep, IsOfAProgram};
ghost use Rattle.om_dead.specs.Finding.{Grown, IsAtOne, LeadsTo, AreFound, IsFound, IsUnkept};

use om_blocks::{Exit, code_of, exit_of, fall_of, graphs_have_flows, link_of};
use om_graph::{BlockId, Graph, Last, OpKind};
use om_io::NoMemory;
use om_passes::{ops_still_fit, passes_go_on, prunes_are_steps};
use om_uses::edits_stay_near;
use om_value::Place;
use std::alloc::Global;

// The blocks that were found, by number, and those among them that were not looked at.
#[derive(Drop)]
struct Found {
    set: Vec<bool>,
    work: Vec<BlockId>,
}

impl Found {
    // Notes a block.
    fn add(&mut self, b: BlockId) -> Result<(), NoMemory>
        requires { b < length self.old.set.items }
        ensures { OnOk result (Grown (λ id. b ≡ id)
            self.old.set.items self.old.work.items self.new.set.items self.new.work.items) }
    {
        if self.set[b.number()] {
            return Ok(());
        }
        self.work.push(b)?;
        self.set[b.number()] = true;
        Ok(())
    }

    // Notes the block at a place, where there is one.
    fn add_at(&mut self, g: &Graph, q: Place) -> Result<(), NoMemory>
        requires { (id : ℕ) → is_live_block g.now id ≡ true → id < length self.old.set.items }
        ensures { OnOk result (Grown (λ id. labelled g.now q ≡ Some id)
            self.old.set.items self.old.work.items self.new.set.items self.new.work.items) }
    {
        match g.block(q) {
            Some(b) => self.add(b),
            None => Ok(()),
        }
    }

    // Notes the block at a place that an op names.
    fn add_code(&mut self, g: &Graph, kind: &OpKind) -> Result<(), NoMemory>
        requires { (id : ℕ) → is_live_block g.now id ≡ true → id < length self.old.set.items }
        ensures { OnOk result (Grown (IsAtOne g.now (places_of (kind_code kind.now)))
            self.old.set.items self.old.work.items self.new.set.items self.new.work.items) }
    {
        match code_of(kind) {
            Some(q) => self.add_at(g, q),
            None => Ok(()),
        }
    }

    // Notes the block behind a word that writes a link register.
    fn add_link(&mut self, g: &Graph, last: &Last) -> Result<(), NoMemory>
        requires rows { (id : ℕ) → is_live_block g.now id ≡ true → id < length self.old.set.items }
        requires fits { (at : AnyPlace) → link_place last.now ≡ Some at → at.off + 4 < 2 ^ 32 }
        ensures { OnOk result (Grown (IsAtOne g.now (places_behind (link_place last.now)))
            self.old.set.items self.old.work.items self.new.set.items self.new.work.items) }
    {
        match link_of(last) {
            Some(at) => {
                let next = Place {
                    obj: at.obj,
                    off: at.off + 4,
                };
                self.add_at(g, next)
            }
            None => Ok(()),
        }
    }

    // Notes the block to which the word that ends a block goes.
    fn add_exit(&mut self, g: &Graph, last: &Last) -> Result<(), NoMemory>
        requires { (id : ℕ) → is_live_block g.now id ≡ true → id < length self.old.set.items }
        ensures { OnOk result (Grown (λ id. last_exit g.now last.now ≡ ToBlock id)
            self.old.set.items self.old.work.items self.new.set.items self.new.work.items) }
    {
        match exit_of(g, last) {
            Exit::Block(b) => self.add(b),
            Exit::Nowhere => Ok(()),
            Exit::ByRegister => Ok(()),
        }
    }

    // Notes the block into which a block falls.
    fn add_fall(&mut self, g: &Graph, b: BlockId, last: &Last) -> Result<(), NoMemory>
        requires rows { (id : ℕ) → is_live_block g.now id ≡ true → id < length self.old.set.items }
        requires live { IsTrue (is_live_block g.now b) }
        ensures { OnOk result (Grown (λ id. next_fallen g.now b last.now ≡ Some id)
            self.old.set.items self.old.work.items self.new.set.items self.new.work.items) }
    {
        match fall_of(g, b, last) {
            Some(n) => self.add(n),
            None => Ok(()),
        }
    }

    // Notes the blocks to which a block leads, and those that it names.
    fn add_from(&mut self, g: &Graph, b: BlockId) -> Result<(), NoMemory>
        requires graph { IsGraph g.now }
        requires flow { HasFlow g.now }
        requires live { IsTrue (is_live_block g.now b) }
        requires rows { (id : ℕ) → is_live_block g.now id ≡ true → id < length self.old.set.items }
        ensures { OnOk result ((x : AnyBlock) → block_of g.now b ≡ Some x → Grown (LeadsTo g.now x)
            self.old.set.items self.old.work.items self.new.set.items self.new.work.items) }
    {
        let mut next = g.first_op(b);
        while let Some(o) = next {
            let op = g.op(o);
            self.add_code(g, &op.kind)?;
            next = g.next_op(o);
        }
        let last = g.last(b);
        self.add_link(g, &last)?;
        self.add_exit(g, &last)?;
        self.add_fall(g, b, &last)?;
        Ok(())
    }

    // Notes the blocks at the roots.
    fn add_roots(&mut self, g: &Graph) -> Result<(), NoMemory>
        requires { (id : ℕ) → is_live_block g.now id ≡ true → id < length self.old.set.items }
        ensures { OnOk result (Grown (IsAtOne g.now g.now.roots)
            self.old.set.items self.old.work.items self.new.set.items self.new.work.items) }
    {
        for root in g.roots() {
            self.add_at(g, *root)?;
        }
        Ok(())
    }

    // The blocks of the kept set, by a search from the roots on: each is looked at once.
    fn of(alloc: Global, g: &Graph) -> Result<Found, NoMemory>
        requires graph { IsGraph g.now }
        requires flow { HasFlow g.now }
        requires kept { KeptInBlocks g.now }
        ensures { IfOk result (λ f. AreFound g.now f.set.items) }
    {
        let mut found = Found {
            set: vec![in alloc; false; g.rows()]?,
            work: Vec::new(alloc),
        };
        found.add_roots(g)?;
        while let Some(b) = found.work.pop() {
            found.add_from(g, b)?;
        }
        Ok(found)
    }

    // Whether a block is among them.
    fn has(&self, b: BlockId) -> bool
        requires { b < length self.now.set.items }
        ensures { result ≡ get_or self.now.set.items b false }
    {
        self.set[b.number()]
    }
}

// Drops a block outside the kept set.
fn drop_one(g: &mut Graph, b: BlockId)
    requires program { IsOfAProgram g.old }
    requires live { IsTrue (is_live_block g.old b) }
    requires unkept { IsUnkept g.old b }
    ensures dropped { g.new ≡ dropped g.old b }
    ensures step { IsStep g.old g.new }
    ensures near { (k : Kept) → IsNearly g.old k → IsNearly g.new k }
{
    g.is_graph();
    g.is_numbered();
    prunes_are_steps();
    ops_still_fit();
    edits_stay_near();
    g.drop_block(b);
}

// Drops a block that was not found. Whether it was such.
fn drop_unfound(g: &mut Graph, found: &Found, b: BlockId) -> bool
    requires program { IsOfAProgram g.old }
    requires live { IsTrue (is_live_block g.old b) }
    requires inside { b < length found.now.set.items }
    requires unkept { get_or found.now.set.items b false ≡ false → IsUnkept g.old b }
    ensures passed { Passes result g.old g.new }
    ensures near { (k : Kept) → IsNearly g.old k → IsNearly g.new k }
    ensures dropped { result ≡ true → g.new ≡ dropped g.old b }
    ensures found { result ≡ false → IsFound found.now.set.items b }
    ensures unfound { result ≡ true → get_or found.now.set.items b false ≡ false }
{
    passes_go_on();
    if found.has(b) {
        return false;
    }
    drop_one(g, b);
    true
}

// Drops the blocks that were not found. Whether there was one.
fn drop_others(g: &mut Graph, found: &Found) -> bool
    requires program { IsOfAProgram g.old }
    requires found { AreFound g.old found.now.set.items }
    ensures passed { Passes result g.old g.new }
    ensures near { (k : Kept) → IsNearly g.old k → IsNearly g.new k }
    ensures only { OnlyKeptSet g.new }
{
    g.is_graph();
    passes_go_on();
    let mut changed = false;
    let mut next = g.first_block();
    while let Some(b) = next {
        next = g.next_block(b);
        if drop_unfound(g, found, b) {
            changed = true;
        }
    }
    changed
}

/// Drops the blocks outside the kept set, which no run may come to. Whether there was one: the graph is as before where not.
///
/// It reads each word of the kept set once. `NoMemory` comes for want of memory alone, and the graph is as before then.
pub fn drop_unkept(alloc: Global, g: &mut Graph) -> Result<bool, NoMemory>
    requires { IsOfAProgram g.old }
    ensures passed { IfOk result (λ changed. Passes changed g.old g.new) }
    ensures near { (k : Kept) → IsNearly g.old k → IsNearly g.new k }
    ensures only { IfOk result (λ changed. OnlyKeptSet g.new) }
    ensures nothing { IfOk result (λ changed. changed ≡ false → OnlyKeptSet g.new) }
    ensures refused { OnErr result (g.new ≡ g.old) }
{
    g.is_graph();
    graphs_have_flows();
    let found = Found::of(alloc, g)?;
    Ok(drop_others(g, &found))
}
