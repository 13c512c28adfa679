// Chains of dead words: what became dead as others were deleted.
ghost use Rattle.std.specs.Prelude.{◌≡◌, ◌<◌, ℕ, [], IsTrue, IfOk, OnOk, OnErr};
ghost use Rattle.om_graph.specs.Held.{IsGraph};
ghost use Rattle.om_graph.specs.View.{is_live_block};
ghost use Rattle.om_passes.specs.Passed.{IsOfAProgram};
ghost use Rattle.om_dead.specs.Words.{IsRewritten};
ghost use Rattle.om_dead.specs.Lowering.{Holds, IsFollowing, SomeDeleted};

use crate::masks::{Masks, bit, is_in};
use crate::regions::Region;
use crate::sources::Sources;
use crate::words::{Loss, list_ops, sweep_block};
use om_graph::{BlockId, Graph, OpId};
use om_io::NoMemory;
use om_value::Place;
use std::alloc::Global;

// Blocks that are to be looked at again, and the registers that they may need no more.
#[derive(Drop)]
struct Queue {
    labels: Vec<Place>,
    queued: Vec<bool>,
    lost: Vec<u32>,
}

impl Queue {
    // Queues a block that may not need some registers any more.
    fn add(&mut self, number: usize, label: Place, registers: u32) -> Result<(), NoMemory> {
        if number >= self.queued.len() || number >= self.lost.len() {
            return Ok(());
        }
        if !self.queued[number] {
            self.labels.push(label)?;
            self.queued[number] = true;
        }
        self.lost[number] |= registers;
        Ok(())
    }

    // Adds registers that a block may need no more.
    fn note(&mut self, number: usize, registers: u32) {
        if number < self.lost.len() {
            self.lost[number] |= registers;
        }
    }

    // Those that a block may need no more, which is looked at.
    fn take(&mut self, number: usize) -> u32 {
        if number >= self.queued.len() || number >= self.lost.len() {
            return 0;
        }
        let lost = self.lost[number];
        self.queued[number] = false;
        self.lost[number] = 0;
        lost
    }

    // Queues the sources of a block, which may not need a register any more.
    fn add_sources(&mut self, s: &Sources, b: BlockId, registers: u32) -> Result<(), NoMemory> {
        let mut at = s.first(b);
        for _ in 0..s.len() {
            match s.get(at) {
                Some(source) => {
                    self.add(source.number, source.label, registers)?;
                    at = source.next;
                }
                None => return Ok(()),
            }
        }
        Ok(())
    }
}

// What goes on from deleted words.
#[derive(Drop)]
pub(crate) struct Following {
    masks: Masks,
    region: Region,
    sources: Sources,
    queue: Queue,
    ops: Vec<OpId>,
    // How many words and blocks may be looked at still.
    left: usize,
}

impl Following {
    pub(crate) fn of(
        alloc: Global,
        g: &Graph,
        masks: Masks,
        losses: &[Loss],
    ) -> Result<Following, NoMemory>
        requires { IsGraph g.now }
        ensures { IfOk result (λ f. (f.masks ≡ masks) × (f.ops.items ≡ [])) }
    {
        let rows = g.rows();
        let mut queue = Queue {
            labels: Vec::new(alloc),
            queued: vec![in alloc; false; rows]?,
            lost: vec![in alloc; 0; rows]?,
        };
        for loss in losses {
            queue.add(loss.number, loss.label, loss.bases)?;
        }
        let sources = Sources::of(alloc, g)?;
        let left = sources.work().saturating_mul(32);
        Ok(Following {
            masks,
            region: Region {
                blocks: Vec::new(alloc),
                at: vec![in alloc; 0; rows]?,
            },
            sources,
            queue,
            ops: Vec::new(alloc),
            left,
        })
    }

    // Deletes the words of a block that are dead.
    fn sweep(&mut self, g: &mut Graph, b: BlockId) -> Result<(), NoMemory>
        requires following { IsFollowing g.old self.old.masks.starts.items self.old.masks.ends.items self.old.ops.items }
        requires live { IsTrue (is_live_block g.old b) }
        ensures deleted { OnOk result (SomeDeleted g.old g.new) }
        ensures following { OnOk result (
            IsFollowing g.new self.new.masks.starts.items self.new.masks.ends.items self.new.ops.items) }
        ensures live { OnOk result (IsTrue (is_live_block g.new b)) }
        ensures refused { OnErr result (g.new ≡ g.old) }
    {
        g.is_graph();
        list_ops(&mut self.ops, g, b)?;
        self.masks.find_end(g, b);
        let mut bases = 0;
        let end = self.masks.end(b);
        let _ = sweep_block(g, &mut self.ops, b, end, &mut bases);
        self.queue.note(b.number(), bases);
        Ok(())
    }

    // Queues what leads to the blocks of the region.
    fn queue_sources(&mut self, r: u32) -> Result<(), NoMemory>
        requires { r < 32 }
        ensures masks { self.new.masks ≡ self.old.masks }
        ensures ops { self.new.ops ≡ self.old.ops }
    {
        for b in self.region.blocks.as_slice() {
            self.queue.add_sources(&self.sources, *b, bit(r))?;
        }
        Ok(())
    }

    // Takes a register out of the masks of a block and of those that it hands it on to, where none of them reads it.
    fn lower(&mut self, g: &Graph, b: BlockId, r: u32) -> Result<(), NoMemory>
        requires following { IsFollowing g.now self.old.masks.starts.items self.old.masks.ends.items self.old.ops.items }
        requires live { IsTrue (is_live_block g.now b) }
        requires register { r < 31 }
        ensures { OnOk result (
            IsFollowing g.now self.new.masks.starts.items self.new.masks.ends.items self.new.ops.items) }
    {
        g.is_graph();
        if !is_in(self.masks.start(b), r) {
            return Ok(());
        }
        let found = self.region.spread(g, &self.masks, b, r, self.left)?;
        let work = self.sources.work_of(self.region.blocks.as_slice());
        self.left = self.left.saturating_sub(work);
        if found {
            self.masks.lower(g, self.region.blocks.as_slice(), r);
            self.queue_sources(r)?;
        }
        Ok(())
    }

    // The same for those of these registers that a block may need no more.
    fn lower_all(&mut self, g: &Graph, b: BlockId, lost: u32) -> Result<(), NoMemory>
        requires following { IsFollowing g.now self.old.masks.starts.items self.old.masks.ends.items self.old.ops.items }
        requires live { IsTrue (is_live_block g.now b) }
        ensures { OnOk result (
            IsFollowing g.now self.new.masks.starts.items self.new.masks.ends.items self.new.ops.items) }
    {
        for r in 0..31 {
            if is_in(lost, r) {
                self.lower(g, b, r)?;
            }
        }
        Ok(())
    }

    // Looks at a block again.
    fn look(&mut self, g: &mut Graph, b: BlockId) -> Result<(), NoMemory>
        requires following { IsFollowing g.old self.old.masks.starts.items self.old.masks.ends.items self.old.ops.items }
        requires live { IsTrue (is_live_block g.old b) }
        ensures deleted { OnOk result (SomeDeleted g.old g.new) }
        ensures following { OnOk result (
            IsFollowing g.new self.new.masks.starts.items self.new.masks.ends.items self.new.ops.items) }
        ensures stopped { OnErr result (IsRewritten g.old g.new) }
    {
        self.sweep(g, b)?;
        let lost = self.queue.take(b.number());
        self.lower_all(g, b, lost)?;
        Ok(())
    }

    // The same of the block of a label.
    fn look_at(&mut self, g: &mut Graph, label: Place) -> Result<(), NoMemory>
        requires following { IsFollowing g.old self.old.masks.starts.items self.old.masks.ends.items self.old.ops.items }
        ensures deleted { OnOk result (SomeDeleted g.old g.new) }
        ensures following { OnOk result (
            IsFollowing g.new self.new.masks.starts.items self.new.masks.ends.items self.new.ops.items) }
        ensures stopped { OnErr result (IsRewritten g.old g.new) }
    {
        match g.block(label) {
            Some(b) => self.look(g, b),
            None => Ok(()),
        }
    }

    // Deletes words that are dead by masks that go down meanwhile.
    pub(crate) fn go_on(&mut self, g: &mut Graph) -> Result<(), NoMemory>
        requires following { IsFollowing g.old self.old.masks.starts.items self.old.masks.ends.items self.old.ops.items }
        ensures deleted { OnOk result (SomeDeleted g.old g.new) }
        ensures stopped { OnErr result (IsRewritten g.old g.new) }
    {
        let most = self.left;
        for n in 0..most {
            let _ = n;
            let Some(label) = self.queue.labels.pop() else {
                return Ok(());
            };
            self.look_at(g, label)?;
        }
        Ok(())
    }
}
