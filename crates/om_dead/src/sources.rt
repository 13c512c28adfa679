// The blocks from which control goes to each block.
ghost use Rattle.std.specs.Prelude.{IsTrue};
ghost use Rattle.om_graph.specs.Held.{IsGraph};
ghost use Rattle.om_graph.specs.View.{is_live_block};

use om_blocks::{Exit, exit_of, fall_of};
use om_graph::{BlockId, Graph};
use om_io::NoMemory;
use om_value::Place;
use std::alloc::Global;

// One of the blocks from which control goes to a block, and where the next one is, plus one.
#[derive(Clone, Copy)]
pub(crate) struct Source {
    pub(crate) number: usize,
    pub(crate) label: Place,
    pub(crate) next: usize,
}

// The sources of all blocks, and where the first one of each is, plus one, by the numbers of the blocks.
#[derive(Drop)]
pub(crate) struct Sources {
    first: Vec<usize>,
    all: Vec<Source>,
    // How many ops there are in each block, and in all of them.
    sizes: Vec<usize>,
    size: usize,
}

// How many ops there are in a block.
fn size_of(g: &Graph, b: BlockId) -> usize
    requires graph { IsGraph g.now }
    requires live { IsTrue (is_live_block g.now b) }
{
    let mut size: usize = 0;
    let mut next = g.first_op(b);
    while let Some(o) = next {
        size = size.saturating_add(1);
        next = g.next_op(o);
    }
    size
}

impl Sources {
    // Adds a source of a block.
    fn add(&mut self, to: BlockId, number: usize, label: Place) -> Result<(), NoMemory> {
        let n = to.number();
        if n >= self.first.len() {
            return Ok(());
        }
        let next = self.first[n];
        self.all.push(Source {
            number,
            label,
            next,
        })?;
        self.first[n] = self.all.len();
        Ok(())
    }

    // Adds a source of the block where the word that ends it goes, other than by a register.
    fn add_exit(&mut self, exit: &Exit, number: usize, label: Place) -> Result<(), NoMemory> {
        match *exit {
            Exit::Block(n) => self.add(n, number, label),
            Exit::Nowhere => Ok(()),
            Exit::ByRegister => Ok(()),
        }
    }

    // Adds a source of the block into which it falls.
    fn add_fall(
        &mut self,
        next: Option<BlockId>,
        number: usize,
        label: Place,
    ) -> Result<(), NoMemory> {
        match next {
            Some(n) => self.add(n, number, label),
            None => Ok(()),
        }
    }

    // Notes how many ops there are in a block.
    fn count(&mut self, number: usize, size: usize) {
        if number < self.sizes.len() {
            self.sizes[number] = size;
        }
        self.size = self.size.saturating_add(size);
    }

    // Adds a block as a source of those to which control goes from it.
    fn add_from(&mut self, g: &Graph, b: BlockId) -> Result<(), NoMemory>
        requires graph { IsGraph g.now }
        requires live { IsTrue (is_live_block g.now b) }
    {
        self.count(b.number(), size_of(g, b));
        let label = g.label(b);
        let last = g.last(b);
        self.add_exit(&exit_of(g, &last), b.number(), label)?;
        self.add_fall(fall_of(g, b, &last), b.number(), label)?;
        Ok(())
    }

    // The sources of all blocks.
    pub(crate) fn of(alloc: Global, g: &Graph) -> Result<Sources, NoMemory>
        requires { IsGraph g.now }
    {
        let mut sources = Sources {
            first: vec![in alloc; 0; g.rows()]?,
            all: Vec::new(alloc),
            sizes: vec![in alloc; 0; g.rows()]?,
            size: 0,
        };
        let mut next = g.first_block();
        while let Some(b) = next {
            sources.add_from(g, b)?;
            next = g.next_block(b);
        }
        Ok(sources)
    }

    // The first source of a block.
    pub(crate) fn first(&self, b: BlockId) -> usize {
        let n = b.number();
        if n < self.first.len() {
            self.first[n]
        } else {
            0
        }
    }

    // How many words and blocks there are, as far as numbers go.
    pub(crate) fn work(&self) -> usize {
        self.size.saturating_add(self.first.len())
    }

    // How many of them there are in blocks.
    pub(crate) fn work_of(&self, blocks: &[BlockId]) -> usize {
        let mut work = blocks.len();
        for b in blocks {
            let n = b.number();
            if n < self.sizes.len() {
                work = work.saturating_add(self.sizes[n]);
            }
        }
        work
    }

    // How many sources there are.
    pub(crate) fn len(&self) -> usize {
        self.all.len()
    }

    // A source.
    pub(crate) fn get(&self, at: usize) -> Option<Source> {
        if at == 0 || at > self.all.len() {
            return None;
        }
        Some(self.all[at - 1])
    }
}
