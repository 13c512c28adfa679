//! Deletion.
ghost use Rattle.std.specs.Prelude.{◌≡◌, false, [], IfOk, OnErr, OnOk};
ghost use Rattle.om_prog.specs.Valid.{IsProgram};
ghost use Rattle.om_graph.specs.Left.{OnlyKeptSet};
ghost use Rattle.om_graph.specs.Same.{SameGraph};
ghost use Rattle.om_graph.specs.Stands.{BasesStand};
ghost use Rattle.om_passes.specs.OneEdit.{MayGoOn};
ghost use Rattle.om_passes.specs.Passed.{IsPassed};
ghost use Rattle.om_passes.specs.Step.{Rewrites};
ghost use Rattle.om_uses.specs.Parts.{IsUsesOf, IsNearly};
ghost use Rattle.om_dead.specs.Words.{IsWithoutDead};

use crate::kept::drop_unkept;
use crate::words::delete_dead;
use om_graph::Graph;
use om_io::NoMemory;
use om_prog::Program;
use om_uses::Uses;
use std::alloc::Global;

/// Drops the blocks that no run may come to, and then deletes the words that came from loads of addresses and from pairs and
/// whose results are dead, until there is none but last words of texts; and the uses are those of what is left. Whether it
/// changed anything. After `NoMemory` meaning is kept, and no more is said.
pub fn prune(alloc: Global, g: &mut Graph, p: &Program, u: &mut Uses) -> Result<bool, NoMemory>
    requires program { IsProgram p.now }
    requires may_go_on { MayGoOn p.now g.old }
    requires bases { BasesStand p.now g.old }
    requires near { IsNearly g.old u.old }
    ensures passed { IfOk result (λ changed. IsPassed p.now changed g.old g.new) }
    ensures uses { OnOk result (IsUsesOf g.new u.new) }
    ensures none { OnOk result (IsWithoutDead g.new) }
    ensures marks { OnOk result (g.new.touched ≡ []) }
    ensures same { IfOk result (λ changed. changed ≡ false → SameGraph g.old g.new) }
    ensures kept { IfOk result (λ changed. changed ≡ false → OnlyKeptSet g.new) }
    ensures stopped { OnErr result (Rewrites p.now g.old g.new) }
{
    let _ = p;
    let dropped = drop_unkept(alloc, g)?;
    let deleted = delete_dead(alloc, g)?;
    u.refresh(g)?;
    Ok(dropped || deleted)
}
