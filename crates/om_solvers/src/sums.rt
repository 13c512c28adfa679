// What solvers answer of a graph, each as one number.
ghost use Rattle.std.specs.Prelude.{◌≡◌, ◌<◌, length, IsTrue};
ghost use Rattle.om_blocks.specs.IsFlow.{HasFlow};
ghost use Rattle.om_graph.specs.OfProgram.{IsGraphOf};
ghost use Rattle.om_graph.specs.Run.{entry_of};
ghost use Rattle.om_graph.specs.View.{is_live_block, is_live_op};

use om_blocks::graphs_have_flows;
use om_gpfacts::Fact;
use om_graph::{BlockId, Graph, OpId};
use om_io::NoMemory;
use om_prog::Program;
use om_uses::Uses;
use std::alloc::Global;

/// A sum with one more number, which its place among the numbers changes.
pub(crate) fn more(sum: u64, n: u64) -> u64 {
    sum.wrapping_mul(6364136223846793005).wrapping_add(n)
}

// A graph of a program is what solvers ask for.
fn has_flow(p: &Program, g: &Graph)
    requires { IsGraphOf p.now g.now }
    ensures flow { HasFlow g.now }
    ensures entry { (entry_of g.now.roots).obj < length g.now.counts }
{
    let _ = p.objects();
    graphs_have_flows();
}

fn number(fact: Fact) -> u64 {
    match fact {
        Fact::Any => 0,
        Fact::Unknown => 1,
        Fact::Table(t) => u64::from(t) + 2,
    }
}

/// Of the facts at all blocks.
pub(crate) fn facts(alloc: Global, p: &Program, g: &Graph) -> Result<u64, NoMemory>
    requires { IsGraphOf p.now g.now }
{
    has_flow(p, g);
    let facts = om_gpfacts::solve(alloc, g)?;
    let mut sum = 0;
    let mut next = g.first_block();
    for _ in 0..u64::MAX {
        let Some(b) = next else {
            break;
        };
        sum = more(sum, number(facts.fact(b)));
        next = g.next_block(b);
    }
    Ok(sum)
}

/// Of the masks at all blocks.
pub(crate) fn masks(alloc: Global, p: &Program, g: &Graph) -> Result<u64, NoMemory>
    requires { IsGraphOf p.now g.now }
{
    has_flow(p, g);
    let live = om_live::solve(alloc, g)?;
    let mut sum = 0;
    let mut next = g.first_block();
    for _ in 0..u64::MAX {
        let Some(b) = next else {
            break;
        };
        sum = more(sum, u64::from(live.mask(b)));
        next = g.next_block(b);
    }
    Ok(sum)
}

fn id_number(o: Option<OpId>) -> u64 {
    match o {
        Some(o) => (o.number() as u64).wrapping_add(1),
        None => 0,
    }
}

// Of what is told of an op: its first two readers, and whether its result is read by the end of its block or stays to it.
fn op_uses(sum: u64, u: &Uses, o: OpId) -> u64 {
    let first = u.next_reader(o, None);
    let mut sum = more(sum, id_number(first));
    if first.is_some() {
        sum = more(sum, id_number(u.next_reader(o, first)));
    }
    let last = if u.read_by_last(o) { 1 } else { 0 };
    let stays = if u.reaches_end(o) { 2 } else { 0 };
    more(sum, last + stays)
}

fn block_uses(sum: u64, g: &Graph, u: &Uses, b: BlockId) -> u64
    requires { IsTrue (is_live_block g.now b) }
{
    let mut sum = sum;
    let mut next = g.first_op(b);
    for _ in 0..u64::MAX {
        let Some(o) = next else {
            break;
        };
        sum = op_uses(sum, u, o);
        next = g.next_op(o);
    }
    sum
}

/// Of what uses tell of all ops of a graph.
pub(crate) fn all_uses(g: &Graph, u: &Uses) -> u64 {
    let mut sum = 0;
    let mut next = g.first_block();
    for _ in 0..u64::MAX {
        let Some(b) = next else {
            break;
        };
        sum = block_uses(sum, g, u, b);
        next = g.next_block(b);
    }
    sum
}

/// Of the uses of a graph, by the first ops of its first 64 blocks, since a reader is looked for along its block.
pub(crate) fn uses(alloc: Global, g: &Graph) -> Result<u64, NoMemory> {
    let u = Uses::scratch(alloc, g)?;
    let mut sum = 0;
    let mut next = g.first_block();
    for _ in 0..64 {
        let Some(b) = next else {
            break;
        };
        sum = match g.first_op(b) {
            Some(o) => op_uses(sum, &u, o),
            None => more(sum, 0),
        };
        next = g.next_block(b);
    }
    Ok(sum)
}
