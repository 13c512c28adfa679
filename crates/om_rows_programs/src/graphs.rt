// Rows of graphs: edits that a formula picks, beside plain lists, and what is read after each; tables and indices.
ghost use Rattle.std.specs.Prelude.{◌≡◌, IfSome, IfOk, IsTrue, vec_len};
ghost use Rattle.om_graph.specs.View.{is_live_block, is_live_op};

use crate::formula::number_after;
use crate::scan;
use om_graph::{BlockId, Graph, Last, Op, OpId, OpKind};
use om_io::NoMemory;
use om_isa::Instr;
use om_rows::{Bad, number, word};
use om_value::Place;
use std::alloc::Global;

const BLOCKS: u32 = 24;

// An op as plain lists have it: the numbers that picked its place and its kind.
#[derive(Clone, Copy)]
struct Picked {
    place: u64,
    kind: u64,
}

// A block as plain lists have it.
#[derive(Drop)]
struct Plain {
    label: Place,
    kept: bool,
    touched: bool,
    ops: Vec<Picked>,
    last: Last,
}

fn kind_of(n: u64) -> OpKind {
    match n & 3 {
        0 => OpKind::Plain(Instr::Fnop),
        1 => OpKind::Plain(Instr::Halt),
        _ => OpKind::Plain(Instr::Callsys),
    }
}

fn op_of(picked: Picked) -> Op {
    let n = picked.place;
    let place = Place {
        obj: (n >> 20 & 3) as u32,
        off: (n >> 24 & 0xffff) as u32,
    };
    Op {
        place,
        kind: kind_of(picked.kind),
    }
}

// The op at a place of a block, counted from 0.
fn op_at(graph: &Graph, b: BlockId, place: usize) -> Option<OpId>
    requires { IsTrue (is_live_block graph.now b) }
    ensures { IfSome result (λ o. IsTrue (is_live_op graph.now o)) }
{
    let mut at = graph.first_op(b)?;
    for _ in 0..place {
        at = graph.next_op(at)?;
    }
    Some(at)
}

// One edit of an op, at a place that the number picks.
fn edit_op(graph: &mut Graph, b: BlockId, plain: &mut Plain, number: u64)
    requires { IsTrue (is_live_block graph.old b) }
{
    let place = (number >> 40) as usize % 8;
    let Some(o) = op_at(graph, b, place) else {
        return;
    };
    if place >= plain.ops.len() {
        return;
    }
    plain.touched = true;
    if number & 1 == 0 {
        graph.replace(o, kind_of(number));
        plain.ops[place].kind = number;
    } else {
        graph.delete(o);
        plain.ops.remove(place);
    }
}

// Drops a block.
fn drop_one(graph: &mut Graph, b: BlockId, plain: &mut Plain)
    requires { IsTrue (is_live_block graph.old b) }
{
    graph.drop_block(b);
    plain.kept = false;
    plain.touched = true;
}

// Gives a block another end.
fn end_one(graph: &mut Graph, b: BlockId, plain: &mut Plain)
    requires { IsTrue (is_live_block graph.old b) }
{
    graph.set_last(b, Last::Fall);
    plain.last = Last::Fall;
    plain.touched = true;
}

// Adds an op to a block.
fn add_one(graph: &mut Graph, b: BlockId, plain: &mut Plain, number: u64) -> Result<(), NoMemory>
    requires { IsTrue (is_live_block graph.old b) }
{
    let picked = Picked {
        place: number,
        kind: number,
    };
    graph.add_op(b, op_of(picked))?;
    plain.ops.push(picked)?;
    Ok(())
}

// One edit of a kept block.
fn edit(graph: &mut Graph, b: BlockId, plain: &mut Plain, number: u64) -> Result<(), NoMemory>
    requires { IsTrue (is_live_block graph.old b) }
{
    match number >> 32 & 255 {
        0 => drop_one(graph, b, plain),
        1..32 => end_one(graph, b, plain),
        32..128 => add_one(graph, b, plain, number)?,
        _ => edit_op(graph, b, plain, number),
    }
    Ok(())
}

// Whether the block has these ops in this order, and no more.
fn has_ops(graph: &Graph, b: BlockId, ops: &[Picked]) -> bool
    requires { IsTrue (is_live_block graph.now b) }
{
    let mut at = graph.first_op(b);
    for picked in ops {
        let Some(o) = at else {
            return false;
        };
        if graph.op(o) != op_of(*picked) {
            return false;
        }
        at = graph.next_op(o);
    }
    at.is_none()
}

// Whether the block is what the plain one says.
fn is_like(graph: &Graph, b: BlockId, plain: &Plain) -> bool
    requires { IsTrue (is_live_block graph.now b) }
{
    graph.label(b) == plain.label
        && graph.last(b) == plain.last
        && !graph.opening(b)
        && has_ops(graph, b, plain.ops.as_slice())
}

// Whether the graph's blocks, in order, are the kept ones.
fn has_blocks(graph: &Graph, plains: &[Plain]) -> bool {
    let mut at = graph.first_block();
    for plain in plains {
        if !plain.kept {
            if graph.block(plain.label).is_some() {
                return false;
            }
            continue;
        }
        let Some(b) = at else {
            return false;
        };
        if graph.block(plain.label) != at || !is_like(graph, b, plain) {
            return false;
        }
        at = graph.next_block(b);
    }
    at.is_none()
}

// Whether the graph's touched labels, in order, are the touched ones.
fn has_marks(graph: &Graph, plains: &[Plain]) -> bool {
    let mut after = None;
    for plain in plains {
        if plain.touched {
            after = graph.next_touched(after);
            if after != Some(plain.label) {
                return false;
            }
        }
    }
    graph.next_touched(after).is_none()
}

// A graph of blocks in three objects, and the plain ones.
fn blocks(alloc: Global) -> Result<(Graph, Vec<Plain>), NoMemory>
    ensures { IfOk result (λ r. vec_len r.1 ≡ 24) }
{
    let roots = [Place { obj: 0, off: 0 }];
    let mut graph = Graph::new(alloc, &[100, 100, 100], &roots)?;
    let mut plains = Vec::new(alloc);
    for n in 0..BLOCKS {
        let label = Place {
            obj: n / 8,
            off: n % 8 * 16,
        };
        graph.add_block(label, false)?;
        plains.push(Plain {
            label,
            kept: true,
            touched: false,
            ops: Vec::new(alloc),
            last: Last::Off,
        })?;
    }
    Ok((graph, plains))
}

// Takes all marks away.
fn clear(graph: &mut Graph, plains: &mut Vec<Plain>)
    ensures { vec_len plains.new ≡ vec_len plains.old }
{
    graph.clear_touched();
    for plain in plains.iter_mut() {
        plain.touched = false;
    }
}

// Whether the graph is like the plain lists after each of so many edits.
fn are_alike(alloc: Global, seed: u64, count: u64) -> Result<bool, NoMemory> {
    let (mut graph, mut plains) = blocks(alloc)?;
    let mut number = seed;
    for _ in 0..count {
        number = number_after(number);
        let plain = &mut plains[(number >> 48) as usize % 24];
        if let Some(b) = graph.block(plain.label) {
            edit(&mut graph, b, plain, number)?;
        }
        if number >> 56 == 7 {
            clear(&mut graph, &mut plains);
        }
        let like = has_blocks(&graph, plains.as_slice());
        if !like || !has_marks(&graph, plains.as_slice()) {
            return Ok(false);
        }
    }
    Ok(true)
}

/// `graph SEED EDITS => alike` or `unlike`
pub fn edits(alloc: Global, input: &str) -> Result<String, Bad> {
    let (seed, count) = word(input);
    let seed = number(seed).ok_or(Bad::Text)?;
    let count = number(count).ok_or(Bad::Text)?;
    let Ok(alike) = are_alike(alloc, seed, count) else {
        return Err(Bad::NoMemory);
    };
    Ok(String::from_str(alloc, if alike { "alike" } else { "unlike" })?)
}

// A graph of objects that have so many words each, of `NUMBER,NUMBER ..`, with one root.
fn empty_graph(alloc: Global, said: &str) -> Result<Graph, Bad> {
    let mut texts = Vec::new(alloc);
    for words in said.split(',') {
        texts.push(scan::small(words).ok_or(Bad::Text)?)?;
    }
    let roots = [Place { obj: 0, off: 0 }];
    if texts.len() >= 0x1_0000_0000 {
        return Err(Bad::NoMemory);
    }
    match Graph::new(alloc, texts.as_slice(), &roots) {
        Ok(graph) => Ok(graph),
        Err(_) => Err(Bad::NoMemory),
    }
}

// Gives an object another table, of `OBJECT=TABLE`; `-` gives none.
fn set_table(graph: &mut Graph, said: &str) -> Result<(), Bad> {
    if said == "-" {
        return Ok(());
    }
    let (obj, table) = said.split_once('=').ok_or(Bad::Text)?;
    let obj = scan::small(obj).ok_or(Bad::Text)?;
    if obj >= graph.objects() {
        return Err(Bad::Text);
    }
    graph.set_table(obj, scan::small(table).ok_or(Bad::Text)?);
    Ok(())
}

/// `table WORDS,WORDS .. OBJECT=TABLE OBJECT => TABLE, N objects, N roots`: the table of an object after another one was set
pub fn table(alloc: Global, input: &str) -> Result<String, Bad> {
    let (sizes, rest) = word(input);
    let (set, obj) = word(rest);
    let mut graph = empty_graph(alloc, sizes)?;
    set_table(&mut graph, set)?;
    let obj = scan::small(obj).ok_or(Bad::Text)?;
    if obj >= graph.objects() {
        return Err(Bad::Text);
    }
    let (objects, roots) = (graph.objects(), graph.roots().len());
    Ok(format!(in alloc; "{}, {objects} objects, {roots} roots", graph.table(obj))?)
}

/// `index WORDS,WORDS .. PLACE => NUMBER`: how many words stand before a place
pub fn index(alloc: Global, input: &str) -> Result<String, Bad> {
    let (sizes, at) = word(input);
    let graph = empty_graph(alloc, sizes)?;
    let at = scan::place(at).ok_or(Bad::Text)?;
    if at.obj >= graph.objects() {
        return Err(Bad::Text);
    }
    Ok(format!(in alloc; "{}", graph.index(at))?)
}
