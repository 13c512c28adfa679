// The lift, word by word.
ghost use Rattle.std.specs.Prelude.{◌≡◌, ◌+◌, ◌<◌, ◌^◌, true, false, IfOk, IfSome, Some, None, ℕ, List, [], ◌∷◌, ◌++◌, map, length};
ghost use Rattle.om_prog.specs.Runs.{sym_run};
ghost use Rattle.om_prog.specs.Script.{program_run};
ghost use Rattle.om_prog.specs.Valid.{IsProgram};
ghost use Rattle.om_prog.specs.View.{ProgramView, is_word, item_at};
ghost use Rattle.om_graph.specs.Landing.{begins as begins_of};
ghost use Rattle.om_graph.specs.Lifted.{IsLifted, grown};
ghost use Rattle.om_graph.specs.OfProgram.{IsGraphOf};
ghost use Rattle.om_graph.specs.Run.{graph_script};
ghost use Rattle.om_graph.specs.View.{Shape, IsAfter};
ghost use Rattle.om_graph.specs.Whole.{IsWhole};
ghost use Rattle.om_lift.specs.Lifting.{IsLast, EndsOff, Holds, fallen_if, new_shape, opened, HasLifted};
ghost use Rattle.om_lift.specs.Places.{AreMarksOf};

use crate::landing::{begins, ends_block, is_opening_pair};
use crate::marks::Marks;
use crate::roots::roots_of;
use crate::words::{last_at, op_at};
use om_graph::{BlockId, Graph, Last, lift_keeps_meaning};
use om_io::NoMemory;
use om_prog::{Item, Program};
use om_value::Place;
use std::alloc::Global;

// Lets control fall from the block that the words go on behind, if the text ended there.
fn let_fall(graph: &mut Graph, before: Option<BlockId>)
    requires { IfSome before (λ b. IsLast b graph.old.blocks) }
    ensures holds { (p : ProgramView) (ss : List Shape) → Holds p ss before graph.old → Holds p (fallen_if before ss) before graph.new }
    ensures labels { graph.new.labels ≡ graph.old.labels }
{
    if let Some(b) = before {
        if let Last::Off = graph.last(b) {
            graph.set_last(b, Last::Fall);
        }
    }
}

// Begins a block at a place.
fn begin_block(
    graph: &mut Graph,
    before: Option<BlockId>,
    at: Place,
    opening: bool,
) -> Result<BlockId, NoMemory>
    requires live { IfSome before (λ b. IsLast b graph.old.blocks) }
    requires after { IsAfter graph.old.labels at }
    ensures { IfOk result (λ b. (p : ProgramView) (ss : List Shape) → Holds p ss before graph.old
        → Holds p (fallen_if before ss ++ new_shape at opening ∷ []) (Some b) graph.new) }
{
    let_fall(graph, before);
    graph.add_block(at, opening)
}

// The block in which the word at a place stands, behind the block before it in its text.
fn block_of(
    graph: &mut Graph,
    p: &Program,
    marks: &Marks,
    before: Option<BlockId>,
    at: Place,
) -> Result<BlockId, NoMemory>
    requires marks { AreMarksOf p.now marks.now }
    requires word { is_word p.now at ≡ true }
    requires room { at.off + 4 < 2 ^ 32 }
    requires live { IfSome before (λ b. IsLast b graph.old.blocks) }
    requires after { IsAfter graph.old.labels at }
    requires first { before ≡ None → begins_of p.now at ≡ true }
    ensures { IfOk result (λ b. (ss : List Shape) → Holds p.now ss before graph.old → Holds p.now (opened p.now at before ss) (Some b) graph.new) }
{
    match before {
        Some(b) if !begins(p, marks, at) => Ok(b),
        _ => begin_block(graph, before, at, is_opening_pair(p, marks, at)),
    }
}

// Puts a word behind those of the last block.
fn add_word(graph: &mut Graph, block: BlockId, at: Place, item: Item) -> Result<(), NoMemory>
    requires { IsLast block graph.old.blocks }
    ensures { IfOk result (λ u. (p : ProgramView) (ss : List Shape) → Holds p ss (Some block) graph.old → EndsOff ss
        → Holds p (grown at item ss) (Some block) graph.new) }
{
    if ends_block(item.instr) {
        graph.set_last(block, last_at(at, item.role, item.instr));
        return Ok(());
    }
    graph.add_op(block, op_at(at, item))?;
    Ok(())
}

// Lifts a word behind the block before it in its text, and gives the block in which it stands.
fn lift_word(
    graph: &mut Graph,
    p: &Program,
    marks: &Marks,
    before: Option<BlockId>,
    at: Place,
    item: Item,
) -> Result<BlockId, NoMemory>
    requires marks { AreMarksOf p.now marks.now }
    requires word { item_at p.now at ≡ Some item }
    requires room { at.off + 4 < 2 ^ 32 }
    requires holds { (ss : List Shape) × Holds p.now ss before graph.old }
    requires after { IsAfter graph.old.labels at }
    requires first { before ≡ None → begins_of p.now at ≡ true }
    ensures { IfOk result (λ b. (ss : List Shape) → Holds p.now ss before graph.old → (begins_of p.now at ≡ false → EndsOff ss)
        → Holds p.now (grown at item (opened p.now at before ss)) (Some b) graph.new) }
{
    let block = block_of(graph, p, marks, before, at)?;
    add_word(graph, block, at, item)?;
    Ok(block)
}

// Lifts the words of an object.
fn lift_text(graph: &mut Graph, p: &Program, marks: &Marks, obj: u32) -> Result<(), NoMemory>
    requires marks { AreMarksOf p.now marks.now }
    requires program { IsProgram p.now }
    requires object { obj < length p.now.texts }
    requires lifted { HasLifted p.now obj graph.old }
    ensures { IfOk result (λ u. HasLifted p.now (obj + 1) graph.new) }
{
    let mut block = None;
    for word in 0..p.words(obj) {
        let at = Place { obj, off: 4 * word };
        if let Some(item) = p.item(at) {
            block = Some(lift_word(graph, p, marks, block, at, item)?);
        }
    }
    Ok(())
}

// The number of words of each object.
fn counts_of(alloc: Global, p: &Program) -> Result<Vec<u32>, NoMemory>
    ensures { IfOk result (λ v. v.items ≡ map (λ text. length text) p.now.texts) }
{
    let mut counts = Vec::new(alloc);
    for obj in 0..p.objects() {
        counts.push(p.words(obj))?;
    }
    Ok(counts)
}

/// The graph of a program: all of its words, in blocks that begin at the first word of each text, at landing places,
/// where branches go, behind branches and jumps, and behind opening pairs. Object i has table i, and no block is
/// touched.
///
/// Takes time near-linear in the words and fields. `NoMemory` comes where memory runs out, and nowhere else.
pub fn lift_program(alloc: Global, p: &Program) -> Result<Graph, NoMemory>
    ensures lifted { IfOk result (λ g. IsLifted p.now g) }
    ensures runs { IfOk result (λ g. (input : List ℕ) (n : ℕ) → sym_run (graph_script p.now g) input n ≡ program_run p.now input n) }
    ensures of { IfOk result (λ g. IsGraphOf p.now g) }
    ensures whole { IfOk result (λ g. IsWhole p.now g) }
{
    let objects = p.objects();
    let roots = roots_of(alloc, p)?;
    let marks = Marks::of(alloc, p, &roots)?;
    let counts = counts_of(alloc, p)?;
    let mut graph = Graph::new(alloc, &counts, &roots)?;
    for obj in 0..objects {
        lift_text(&mut graph, p, &marks, obj)?;
    }
    graph.clear_touched();
    graph.is_graph();
    lift_keeps_meaning();
    Ok(graph)
}
