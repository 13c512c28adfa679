// The text of an image: the words of a graph, block by block.
ghost use Rattle.std.specs.Prelude.{◌≡◌, Some, IfOk, IsTrue};
ghost use Rattle.om_graph.specs.View.{Block, block_of, is_live_block};
ghost use Rattle.om_graph.specs.Run.{block_words, words};
ghost use Rattle.om_encode.specs.Encoded.{IsEncodable, AreForms, Writes, WritesInstr, WritesIf, WritesOp, op_words};
ghost use Rattle.om_encode.specs.Written.{noted, FitsOp, FitsLast, last_instr as last_of};

use crate::highs::{High, note};
use crate::lasts::last_instr;
use crate::ops::op_instr;
use om_graph::{BlockId, Graph, Last, Op};
use om_io::NoMemory;
use om_isa::{Instr, encode};
use om_layout::Layout;
use om_prog::Program;
use std::alloc::Global;

// Puts the word of an instruction behind others.
fn write_instr(text: &mut Vec<u32>, instr: Instr) -> Result<(), NoMemory>
    ensures { IfOk result (λ u. WritesInstr instr text.old.items text.new.items) }
{
    text.push(encode(&instr))?;
    Ok(())
}

// Puts the word of an op behind others.
fn write_op(
    program: &Program,
    layout: &Layout,
    highs: &mut [Option<High>; 32],
    op: &Op,
    text: &mut Vec<u32>,
) -> Result<(), NoMemory>
    requires { FitsOp program.now layout.now highs.old op.now.place.obj op.now.kind }
    ensures written { IfOk result (λ u. WritesOp program.now layout.now highs.old op.now text.old.items text.new.items) }
    ensures highs { IfOk result (λ u. highs.new ≡ noted highs.old op.now.kind) }
{
    write_instr(
        text,
        op_instr(program, layout, highs, op.place.obj, &op.kind),
    )?;
    note(highs, &op.kind);
    Ok(())
}

// Puts the word at a block's end behind others, if there is one.
fn write_last(layout: &Layout, last: Last, text: &mut Vec<u32>) -> Result<(), NoMemory>
    requires { FitsLast layout.now last }
    ensures { IfOk result (λ u. WritesIf (last_of layout.now last) text.old.items text.new.items) }
{
    match last_instr(layout, last) {
        Some(instr) => write_instr(text, instr),
        None => Ok(()),
    }
}

// Puts the words of a block's ops behind others.
fn write_ops(
    graph: &Graph,
    program: &Program,
    layout: &Layout,
    block: BlockId,
    text: &mut Vec<u32>,
) -> Result<(), NoMemory>
    requires can { IsEncodable program.now graph.now layout.now }
    requires live { IsTrue (is_live_block graph.now block) }
    ensures { IfOk result (λ u. (b : Block) → block_of graph.now block ≡ Some b
        → Writes program.now graph.now layout.now (op_words b) text.old.items text.new.items) }
{
    let mut highs = [None; 32];
    let mut next = graph.first_op(block);
    while let Some(id) = next {
        let op = graph.op(id);
        write_op(program, layout, &mut highs, &op, text)?;
        next = graph.next_op(id);
    }
    Ok(())
}

// Puts the words of a block behind others.
fn write_block(
    graph: &Graph,
    program: &Program,
    layout: &Layout,
    block: BlockId,
    text: &mut Vec<u32>,
) -> Result<(), NoMemory>
    requires can { IsEncodable program.now graph.now layout.now }
    requires live { IsTrue (is_live_block graph.now block) }
    ensures { IfOk result (λ u. (b : Block) → block_of graph.now block ≡ Some b
        → Writes program.now graph.now layout.now (block_words b) text.old.items text.new.items) }
{
    write_ops(graph, program, layout, block, text)?;
    write_last(layout, graph.last(block), text)?;
    Ok(())
}

/// The image words of the kept words, in order of object and offset.
pub(crate) fn text_of(
    alloc: Global,
    graph: &Graph,
    program: &Program,
    layout: &Layout,
) -> Result<Vec<u32>, NoMemory>
    requires { IsEncodable program.now graph.now layout.now }
    ensures { IfOk result (λ text. AreForms program.now graph.now layout.now (words graph.now) text.items) }
{
    let mut text = Vec::new(alloc);
    let mut next = graph.first_block();
    while let Some(block) = next {
        write_block(graph, program, layout, block, &mut text)?;
        next = graph.next_block(block);
    }
    Ok(text)
}
