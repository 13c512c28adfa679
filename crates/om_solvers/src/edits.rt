// Edits of a graph that a formula picks, with uses that are refreshed after each and compared with fresh ones.
ghost use Rattle.std.specs.Prelude.{◌≡◌, IfSome, OnOk, IsTrue};
ghost use Rattle.om_graph.specs.View.{is_live_block, is_live_op};
ghost use Rattle.om_uses.specs.Parts.{IsNearly, IsUsesOf, Kept};

use crate::shapes::{OBJECTS, Shape, data, program, start};
use crate::sums::{all_uses, more};
use om_graph::{BlockId, Graph, Last, OpId};
use om_io::NoMemory;
use om_lift::lift_program;
use om_prog::Program;
use om_uses::{Uses, edits_stay_near};
use om_value::Target;
use std::alloc::Global;

const WORDS: u32 = 512;

// A graph is edited so often before it is made again.
const EDITS: u32 = 250;

// The number after another: that times 6364136223846793005, plus 1442695040888963407, modulo 2^64.
fn number_after(n: u64) -> u64 {
    more(n, 1442695040888963407)
}

// The block at a place among the kept ones, counted from 0.
fn block_at(g: &Graph, place: u64) -> Option<BlockId>
    ensures { IfSome result (λ b. IsTrue (is_live_block g.now b)) }
{
    let mut at = g.first_block()?;
    for _ in 0..place {
        at = g.next_block(at)?;
    }
    Some(at)
}

// The op at a place of a block, counted from 0.
fn op_at(g: &Graph, b: BlockId, place: u64) -> Option<OpId>
    requires { IsTrue (is_live_block g.now b) }
    ensures { IfSome result (λ o. IsTrue (is_live_op g.now o)) }
{
    let mut at = g.first_op(b)?;
    for _ in 0..place {
        at = g.next_op(at)?;
    }
    Some(at)
}

// Deletes an op, or gives it the kind of the op behind it.
fn edit_op(g: &mut Graph, o: OpId, number: u64)
    requires { IsTrue (is_live_op g.old o) }
    ensures { (k : Kept) → IsNearly g.old k → IsNearly g.new k }
{
    edits_stay_near();
    g.is_graph();
    g.is_numbered();
    match g.next_op(o) {
        Some(next) if number & 1 == 1 => {
            let kind = g.op(next).kind;
            g.replace(o, kind);
        }
        _ => g.delete(o),
    }
}

// One edit of a block.
fn edit_block(g: &mut Graph, b: BlockId, number: u64)
    requires { IsTrue (is_live_block g.old b) }
    ensures { (k : Kept) → IsNearly g.old k → IsNearly g.new k }
{
    edits_stay_near();
    g.is_graph();
    g.is_numbered();
    match number >> 56 {
        0..16 => g.drop_block(b),
        16..64 => g.set_last(b, Last::Fall),
        _ => {
            if let Some(o) = op_at(g, b, number >> 32 & 3) {
                edit_op(g, o, number >> 40);
            }
        }
    }
}

// One edit, where the formula picks a block that is kept.
fn edit(g: &mut Graph, number: u64)
    ensures { (k : Kept) → IsNearly g.old k → IsNearly g.new k }
{
    if let Some(b) = block_at(g, number >> 48 & 127) {
        edit_block(g, b, number);
    }
}

// Whether both count as many loads of all targets that the graph was made with.
fn count_alike(u: &Uses, v: &Uses) -> bool {
    let mut alike = true;
    for n in 0..OBJECTS {
        let code = Target::Code(start(n));
        alike = alike && u.count(code) == v.count(code) && u.count(data(n)) == v.count(data(n));
    }
    alike
}

// Edits a graph, refreshes its uses, and tells whether they are then as fresh ones.
fn step(alloc: Global, g: &mut Graph, u: &mut Uses, number: u64) -> Result<bool, NoMemory>
    requires { IsUsesOf g.old u.old }
    ensures { OnOk result (IsUsesOf g.new u.new) }
{
    edits_stay_near();
    edit(g, number);
    u.refresh(g)?;
    let fresh = Uses::scratch(alloc, g)?;
    Ok(all_uses(g, u) == all_uses(g, &fresh) && count_alike(u, &fresh))
}

// After how many of so many edits of a new graph both are alike, by numbers from `number` on.
fn turn(alloc: Global, p: &Program, number: u64, count: u32) -> Result<u32, NoMemory> {
    let mut g = lift_program(alloc, p)?;
    let mut u = Uses::scratch(alloc, &g)?;
    let mut number = number;
    let mut agreed: u32 = 0;
    for _ in 0..count {
        number = number_after(number);
        if step(alloc, &mut g, &mut u, number)? {
            agreed = agreed.saturating_add(1);
        }
    }
    Ok(agreed)
}

/// After how many of so many edits refreshed uses are as fresh ones.
pub(crate) fn agreed(alloc: Global, count: u32) -> Result<u32, NoMemory> {
    let Some(p) = program(alloc, Shape::Mixed, WORDS)? else {
        return Ok(0);
    };
    let mut agreed: u32 = 0;
    let mut left = count;
    for n in 0..count {
        if left == 0 {
            break;
        }
        let now = left.min(EDITS);
        agreed = agreed.saturating_add(turn(alloc, &p, u64::from(n), now)?);
        left -= now;
    }
    Ok(agreed)
}
