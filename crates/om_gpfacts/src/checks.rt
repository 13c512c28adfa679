//! The check of facts. It takes no memory.
ghost use Rattle.std.specs.Prelude.{◌≡◌, ◌<◌, ◌↔◌, ℕ, IsTrue, Some, None, get_or, length};
ghost use Rattle.om_prog.specs.View.{ProgramView};
ghost use Rattle.om_prog.specs.Facts as prog;
ghost use Rattle.om_flow.specs.declared.parts.Fact.TheVariants.{Unknown};
ghost use Rattle.om_flow.specs.declared.parts.Fact.{Fact as FoundFact};
ghost use Rattle.om_flow.specs.Facts.{Allows};
ghost use Rattle.om_graph.specs.Held.{IsGraph};
ghost use Rattle.om_graph.specs.View.{Block as AnyBlock, is_live_block, Has};
ghost use Rattle.om_graph.specs.Run.{entry_of, graph_script};
ghost use Rattle.om_graph.specs.Checks.{GpChecked};
ghost use Rattle.om_blocks.specs.declared.exits.Exit.TheVariants.{Block as ToBlock};
ghost use Rattle.om_blocks.specs.IsFlow.{HasFlow};
ghost use Rattle.om_blocks.specs.Found.{facts_in};
ghost use Rattle.om_blocks.specs.Laws.{entry_table};
ghost use Rattle.om_gpfacts.specs.Passing.{with_exit as fact_with_exit, Passes, PassesMore};

use crate::facts::{GpFacts, table_at_entry};
use om_blocks::{BlockTest, Exit, effect_of, exit_of, fall_of, passes_at_landings};
use om_flow::{Fact, facts};
use om_graph::{BlockId, Graph};

// Whether a fact at the end of a block is allowed where its last word goes, other than by a register.
fn at_exit(f: &GpFacts, exit: &Exit, sent: Fact) -> bool
    ensures { IsTrue result ↔
        ((id : ℕ) → exit.now ≡ ToBlock id → Allows sent (get_or f.now id Unknown)) }
{
    match *exit {
        Exit::Block(b) => facts::allows(sent, f.fact(b)),
        Exit::Nowhere => true,
        Exit::ByRegister => true,
    }
}

// The same where it falls.
fn at_fall(f: &GpFacts, next: Option<BlockId>, sent: Fact) -> bool
    ensures { IsTrue result ↔ ((id : ℕ) → next ≡ Some id → Allows sent (get_or f.now id Unknown)) }
{
    match next {
        Some(b) => facts::allows(sent, f.fact(b)),
        None => true,
    }
}

fn with_exit(exit: &Exit, out: Fact, sent: Fact) -> Fact
    ensures { result ≡ fact_with_exit exit.now out sent }
{
    match *exit {
        Exit::ByRegister => facts::join(out, sent),
        Exit::Nowhere => out,
        Exit::Block(_) => out,
    }
}

// Whether what comes from a block's end is allowed where it goes; and what jumps by a register so far, as one fact.
fn step(g: &Graph, f: &GpFacts, b: BlockId, out: Fact) -> Option<Fact>
    requires graph { IsGraph g.now }
    requires flow { HasFlow g.now }
    requires live { IsTrue (is_live_block g.now b) }
    ensures some { (new : FoundFact) → result ≡ Some new → (x : AnyBlock) → Has g.now.blocks x
        → x.id ≡ b → PassesMore g.now f.now x out new }
    ensures none { result ≡ None → (p : ProgramView)
        → GpChecked (graph_script p g.now) (facts_in g.now f.now) g.now → ⊥ }
{
    let last = g.last(b);
    let exit = exit_of(g, &last);
    let sent = facts::sent_by(effect_of(g, b).transfer, f.fact(b));
    if !at_exit(f, &exit, sent) {
        return None;
    }
    if !at_fall(f, fall_of(g, b, &last), sent) {
        return None;
    }
    Some(with_exit(&exit, out, sent))
}

// The same for all blocks.
fn passed(g: &Graph, f: &GpFacts) -> Option<Fact>
    requires graph { IsGraph g.now }
    requires flow { HasFlow g.now }
    ensures some { (out : FoundFact) → result ≡ Some out → Passes g.now f.now g.now.blocks out }
    ensures none { result ≡ None → (p : ProgramView)
        → GpChecked (graph_script p g.now) (facts_in g.now f.now) g.now → ⊥ }
{
    let mut out = Fact::Any;
    let mut next = g.first_block();
    while let Some(b) = next {
        match step(g, f, b, out) {
            Some(sent) => out = sent,
            None => return None,
        }
        next = g.next_block(b);
    }
    Some(out)
}

// Whether a fact allows those that stand at blocks.
#[derive(Drop)]
struct AllowedBy<'a> {
    facts: &'a GpFacts,
    out: Fact,
}

impl BlockTest for AllowedBy<'_> {
    ghost use Rattle.std.specs.Prelude.{get_or};
    ghost use Rattle.om_flow.specs.declared.parts.Fact.TheVariants.{Unknown};
    ghost use Rattle.om_flow.specs.Facts.{Allows};

    ghost holds = { λ t b. Allows t.out (get_or t.facts.now b Unknown) };

    fn passes(&self, b: BlockId) -> bool {
        facts::allows(self.out, self.facts.fact(b))
    }
}

fn at_entry(g: &Graph, f: &GpFacts) -> bool
    requires graph { IsGraph g.now }
    requires flow { HasFlow g.now }
    requires entry { (entry_of g.now.roots).obj < length g.now.counts }
    ensures { IsTrue result ↔
        prog.Allows (prog.Table (entry_table g.now)) (facts_in g.now f.now (entry_of g.now.roots)) }
{
    match g.block(g.roots()[0]) {
        Some(b) => facts::allows(Fact::Table(table_at_entry(g)), f.fact(b)),
        None => true,
    }
}

/// Whether facts hold on every walk, whoever made them: the entry's is Unknown or the table of its object, and what a block
/// leaves in r29 is allowed by the fact of each block that a walk enters from its end. The graph is of a program. It takes
/// no memory.
pub fn check(g: &Graph, f: &GpFacts) -> bool
    requires flow { HasFlow g.now }
    requires entry { (entry_of g.now.roots).obj < length g.now.counts }
    ensures { (p : ProgramView) →
        IsTrue result ↔ GpChecked (graph_script p g.now) (facts_in g.now f.now) g.now }
{
    g.is_graph();
    if !at_entry(g, f) {
        return false;
    }
    match passed(g, f) {
        Some(out) => passes_at_landings(g, &AllowedBy { facts: f, out }),
        None => false,
    }
}
