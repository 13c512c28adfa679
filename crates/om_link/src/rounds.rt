// The rounds of rewriting.
ghost use Rattle.std.specs.Prelude.{◌≡◌, ◌||◌, false, [], IfOk, OnOk};
ghost use Rattle.om_graph.specs.Left.{OnlyKeptSet};
ghost use Rattle.om_graph.specs.Stands.{BasesStand};
ghost use Rattle.om_layout.specs.Limits.{IsWithinLimits};
ghost use Rattle.om_prog.specs.Valid.{IsProgram};
ghost use Rattle.om_passes.specs.OneEdit.{MayGoOn};
ghost use Rattle.om_passes.specs.Passed.{IsOfAProgram, IsPassed, Passes};
ghost use Rattle.om_uses.specs.Parts.{IsUsesOf};
ghost use Rattle.om_dead.specs.Words.{IsWithoutDead};
ghost use Rattle.om_addr.specs.Whole.{IsAddressDone};
ghost use Rattle.om_link.specs.Rounds.{MayBegin, AreRounds};
ghost use Rattle.om_link.specs.Turns.{AreCallsDone, LoadsPass};

use om_addr::reduce;
use om_calls::{direct, drop_gp, enter};
use om_dead::prune;
use om_gpfacts::solve;
use om_graph::Graph;
use om_io::NoMemory;
use om_layout::{Layout, lay};
use om_prog::Program;
use om_uses::Uses;
use std::alloc::Global;

// Whether one of three is so.
fn any_of(a: bool, b: bool, c: bool) -> bool
    ensures { result ≡ ((a || b) || c) }
{
    a || b || c
}

// Makes calls direct, drops pairs that set r29 to what it holds, and lets calls go past them. Whether it changed anything.
fn rewrite_calls(alloc: Global, g: &mut Graph, u: &mut Uses) -> Result<bool, NoMemory>
    requires program { IsOfAProgram g.old }
    requires uses { IsUsesOf g.old u.old }
    requires marks { g.old.touched ≡ [] }
    ensures passed { IfOk result (λ changed. Passes changed g.old g.new) }
    ensures nothing { IfOk result (λ changed. changed ≡ false → AreCallsDone g.new) }
    ensures uses { OnOk result (IsUsesOf g.new u.new) }
    ensures marks { OnOk result (g.new.touched ≡ []) }
{
    let directed = direct(g, u);
    let facts = solve(alloc, g)?;
    let dropped = drop_gp(g, &facts);
    let entered = enter(g, &facts);
    u.refresh(g)?;
    Ok(any_of(directed, dropped, entered))
}

// Reduces loads of addresses over a layout. Whether it changed anything.
fn rewrite_loads(
    alloc: Global,
    g: &mut Graph,
    u: &mut Uses,
    layout: &Layout,
) -> Result<bool, NoMemory>
    requires program { IsOfAProgram g.old }
    requires uses { IsUsesOf g.old u.old }
    requires marks { g.old.touched ≡ [] }
    ensures passed { IfOk result (λ changed. LoadsPass layout.now changed g.old g.new) }
    ensures nothing { IfOk result (λ changed. changed ≡ false → IsAddressDone layout.now g.new) }
    ensures uses { OnOk result (IsUsesOf g.new u.new) }
    ensures marks { OnOk result (g.new.touched ≡ []) }
{
    let changed = reduce(alloc, g, layout)?;
    u.refresh(g)?;
    Ok(changed)
}

// Prunes, and once more where that changed something, since a load that is deleted may leave a block to which no run comes.
// Whether the last time changed something.
fn prune_twice(alloc: Global, g: &mut Graph, p: &Program, u: &mut Uses) -> Result<bool, NoMemory>
    requires program { IsProgram p.now }
    requires may_go_on { MayGoOn p.now g.old }
    requires bases { BasesStand p.now g.old }
    requires uses { IsUsesOf g.old u.old }
    ensures passed { IfOk result (λ again. IsPassed p.now again g.old g.new) }
    ensures kept { IfOk result (λ again. again ≡ false → OnlyKeptSet g.new) }
    ensures none { OnOk result (IsWithoutDead g.new) }
    ensures uses { OnOk result (IsUsesOf g.new u.new) }
    ensures marks { OnOk result (g.new.touched ≡ []) }
{
    let changed = prune(alloc, g, p, u)?;
    if !changed {
        return Ok(false);
    }
    let again = prune(alloc, g, p, u)?;
    Ok(again)
}

/// Rewrites a graph until nothing is left to rewrite, and gives its layout. A turn rewrites calls, lays the graph out, and
/// reduces loads over the layout; between two turns the graph is pruned. The last turn changes nothing, nor did the prune
/// before it: so all that is said of the graph that is left is said of one graph in one layout.
pub(crate) fn rounds(alloc: Global, g: &mut Graph, p: &Program) -> Result<Layout, NoMemory>
    requires program { IsProgram p.now }
    requires limits { IsWithinLimits p.now }
    requires begins { MayBegin p.now g.old }
    ensures { IfOk result (λ l. AreRounds p.now g.old g.new l) }
{
    let mut uses = Uses::scratch(alloc, g)?;
    let mut pruned = prune(alloc, g, p, &mut uses)?;
    loop {
        let called = rewrite_calls(alloc, g, &mut uses)?;
        let layout = lay(alloc, g, p)?;
        let reduced = rewrite_loads(alloc, g, &mut uses, &layout)?;
        if !any_of(pruned, called, reduced) {
            return Ok(layout);
        }
        pruned = prune_twice(alloc, g, p, &mut uses)?;
    }
}
