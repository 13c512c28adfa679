//! The facts, and their solver.
ghost use Rattle.std.specs.Prelude.{◌≡◌, ◌<◌, false, IfOk, get_or, length};
ghost use Rattle.om_graph.specs.Held.{IsGraph};
ghost use Rattle.om_graph.specs.Run.{entry_of};
ghost use Rattle.om_graph.specs.View.{GraphView, is_live_block};
ghost use Rattle.om_flow.specs.declared.parts.Fact.TheVariants.{Unknown};
ghost use Rattle.om_blocks.specs.IsFlow.{HasFlow};
ghost use Rattle.om_blocks.specs.Laws.{entry_table};
ghost use Rattle.om_gpfacts.specs.Exact.{AreExact, OthersAreUnknown, AreOfKept};

use om_blocks::flow_of;
use om_flow::{Fact, facts};
use om_graph::{BlockId, Graph};
use om_io::NoMemory;
use std::alloc::Global;
use std::marker::Model;

/// What r29 holds at the start of each block, by the numbers of the blocks. It is seen as the list of facts.
#[derive(Drop)]
pub struct GpFacts {
    facts: Vec<Fact>,
}

impl Model for GpFacts {
    ghost use Rattle.std.specs.Prelude.{List};
    ghost use Rattle.om_flow.specs.declared.parts.Fact.{Fact as AnyFact};

    ghost Value = { List AnyFact };

    ghost view = { λ f. f.facts.items };
}

impl GpFacts {
    /// The fact at a block's start. Of a block that the graph of `solve` did not have, since it was dropped before or added
    /// after, nothing is known.
    pub fn fact(&self, b: BlockId) -> Fact
        ensures fact { result ≡ get_or self.now b Unknown }
        ensures others { (g : GraphView) → OthersAreUnknown g self.now →
            is_live_block g b ≡ false → result ≡ Unknown }
    {
        self.numbered(b.number())
    }

    pub(crate) fn numbered(&self, at: usize) -> Fact
        ensures { result ≡ get_or self.now at Unknown }
    {
        if at < self.facts.len() {
            self.facts[at]
        } else {
            Fact::Unknown
        }
    }
}

// The table of the object of the entry.
pub(crate) fn table_at_entry(g: &Graph) -> u32
    requires graph { IsGraph g.now }
    requires flow { HasFlow g.now }
    requires entry { (entry_of g.now.roots).obj < length g.now.counts }
    ensures { result ≡ entry_table g.now }
{
    g.table(g.roots()[0].obj)
}

// The facts at the starts of all blocks of a graph of a program. Of numbers that are no kept block's nothing is said.
fn solve_numbers(alloc: Global, g: &Graph) -> Result<GpFacts, NoMemory>
    requires graph { IsGraph g.now }
    requires flow { HasFlow g.now }
    requires entry { (entry_of g.now.roots).obj < length g.now.counts }
    ensures { IfOk result (λ f. AreExact g.now f) }
{
    let flow = flow_of(alloc, g)?;
    let facts = facts::solve(alloc, &flow, table_at_entry(g))?;
    Ok(GpFacts { facts })
}

// The same facts of the kept blocks, and Unknown for each other number.
fn of_kept(alloc: Global, g: &Graph, found: &GpFacts) -> Result<GpFacts, NoMemory>
    requires { IsGraph g.now }
    ensures { IfOk result (λ f. AreOfKept g.now found.now f) }
{
    let rows = g.rows();
    let mut facts = vec![in alloc; Fact::Unknown; rows]?;
    let mut next = g.first_block();
    while let Some(b) = next {
        facts[b.number()] = found.fact(b);
        next = g.next_block(b);
    }
    Ok(GpFacts { facts })
}

/// The facts at the starts of all blocks of a graph of a program, where control starts at the first root with the global
/// pointer of its object's table in r29. They pass `check`, and they are exact: Any where no walk comes to the block, Table
/// where each walk that comes leaves that table's global pointer, set by the start or by the low half of a pair, and Unknown
/// where a walk leaves another value, or two leave the pointers of two tables. Of a number that is no kept block's the fact
/// is Unknown. `NoMemory` comes for want of memory, and where the graph was made with more than 4 * 10^9 blocks.
pub fn solve(alloc: Global, g: &Graph) -> Result<GpFacts, NoMemory>
    requires flow { HasFlow g.now }
    requires entry { (entry_of g.now.roots).obj < length g.now.counts }
    ensures exact { IfOk result (λ f. AreExact g.now f) }
    ensures others { IfOk result (λ f. OthersAreUnknown g.now f) }
{
    g.is_graph();
    let found = solve_numbers(alloc, g)?;
    let facts = of_kept(alloc, g, &found)?;
    Ok(facts)
}
