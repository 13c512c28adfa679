// A small program and its graph. The first object loads an array's address, steps along it and calls the second one, which
// loads the array's other address and returns.
ghost use Rattle.std.specs.Prelude.{◌≡◌, ◌≤◌, ◌<◌, length, IsTrue, IfSome};
ghost use Rattle.om_blocks.specs.IsFlow.{HasFlow};
ghost use Rattle.om_graph.specs.OfProgram.{IsGraphOf};
ghost use Rattle.om_graph.specs.Run.{entry_of};
ghost use Rattle.om_graph.specs.View.{is_live_block, is_live_op};

use om_blocks::graphs_have_flows;
use om_graph::{BlockId, Graph, OpId};
use om_io::{Bytes, Listed};
use om_isa::{Instr, decode};
use om_prog::{Item, Program, RegionInit, Role};
use om_value::{Place, Region, Target};
use std::alloc::{AllocError, Global};
use std::test::Fail;

const DATA: Region = Region::Sec { obj: 0, number: 3 };

// The first object. It begins blocks at 0, at 8, at 28 behind the call, and at 36.
const MAIN: [u32; 12] = [
    0x27bb_0000, // ldah r29,0(r27)
    0x23bd_0000, // lda r29,0(r29)
    0xa43d_0000, // ldq r1,0(r29)
    0xa461_0000, // ldq r3,0(r1)
    0x2021_0008, // lda r1,8(r1)
    0xa77d_0000, // ldq r27,0(r29)
    0x6b5b_4000, // jsr r26,(r27)
    0x27ba_0000, // ldah r29,0(r26)
    0x23bd_0000, // lda r29,0(r29)
    0xa45d_0000, // ldq r2,0(r29)
    0x201f_0001, // lda r0,1(r31)
    0x0000_0083, // callsys
];

// The second object. It begins blocks at 0 and at 8.
const CALLED: [u32; 4] = [
    0x27bb_0000, // ldah r29,0(r27)
    0x23bd_0000, // lda r29,0(r29)
    0xa43d_0000, // ldq r1,0(r29)
    0x6bfa_8000, // ret r31,(r26)
];

pub(crate) fn place(obj: u32, off: u32) -> Place
    ensures { result ≡ record { obj = obj; off = off } }
{
    Place { obj, off }
}

fn array_from(off: u64) -> Role {
    Role::Lit(Target::Ptr { region: DATA, off })
}

fn role_in_main(off: u32) -> Role {
    match off {
        0 => Role::GpHi { base: place(0, 0) },
        4 => Role::GpLo { hi: place(0, 0) },
        8 => array_from(0),
        20 => Role::Lit(Target::Code(place(1, 0))),
        28 => Role::GpHi { base: place(0, 28) },
        32 => Role::GpLo { hi: place(0, 28) },
        36 => array_from(8),
        _ => Role::Plain,
    }
}

fn role_in_called(off: u32) -> Role {
    match off {
        0 => Role::GpHi { base: place(1, 0) },
        4 => Role::GpLo { hi: place(1, 0) },
        8 => array_from(8),
        _ => Role::Plain,
    }
}

fn role_at(obj: u32, off: u32) -> Role {
    if obj == 0 {
        role_in_main(off)
    } else {
        role_in_called(off)
    }
}

fn text(alloc: Global, obj: u32, words: &[u32]) -> Result<Vec<Item>, AllocError>
    requires { length words.now ≤ 100 }
{
    let mut items = Vec::new(alloc);
    let mut off = 0;
    for word in words {
        items.push(Item {
            word: *word,
            instr: decode(*word).unwrap_or(Instr::Halt),
            role: role_at(obj, off),
        })?;
        off += 4;
    }
    Ok(items)
}

pub(crate) fn program(alloc: Global) -> Result<Program, Fail> {
    let mut texts = Vec::new(alloc);
    texts.push(text(alloc, 0, &MAIN)?)?;
    texts.push(text(alloc, 1, &CALLED)?)?;
    let mut regions = Vec::new(alloc);
    regions.push(RegionInit {
        region: DATA,
        size: 16,
        zero: false,
        bytes: Bytes::from_vec(Vec::new(alloc)),
        fields: Listed::from_vec(Vec::new(alloc)),
    })?;
    Ok(Program::make(alloc, texts, regions, place(0, 0))?)
}

// A graph of a program is what solvers ask for.
pub(crate) fn has_flow(p: &Program, g: &Graph)
    requires { IsGraphOf p.now g.now }
    ensures flow { HasFlow g.now }
    ensures entry { (entry_of g.now.roots).obj < length g.now.counts }
{
    let _ = p.objects();
    graphs_have_flows();
}

// The op at a place of a block, counted from 0.
pub(crate) fn op_at(g: &Graph, b: BlockId, place: u32) -> Option<OpId>
    requires { IsTrue (is_live_block g.now b) }
    ensures { IfSome result (λ o. IsTrue (is_live_op g.now o)) }
{
    let mut at = g.first_op(b)?;
    for _ in 0..place {
        at = g.next_op(at)?;
    }
    Some(at)
}
