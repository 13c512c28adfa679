// What a block does to the registers.
ghost use Rattle.std.specs.Prelude.{◌≡◌, ◌<◌, ◌^◌, ℕ, IsTrue, List, Some};
ghost use Rattle.om_isa.specs.Registers.{reg_bit, mask_of, mask_onto, branch_reads, branch_writes};
ghost use Rattle.om_prog.specs.Act.{base_of, used_reads, stored_reads};
ghost use Rattle.om_prog.specs.Facts.{has};
ghost use Rattle.om_graph.specs.View.{Block as AnyBlock, is_live_block, block_of};
ghost use Rattle.om_graph.specs.Run.{block_words, table_of};
ghost use Rattle.om_graph.specs.Held.{IsGraph};
ghost use Rattle.om_blocks.specs.IsFlow.{HasFlow};
ghost use Rattle.om_blocks.specs.Effects.{kind_reads, kind_writes, last_reads as registers_last_read, last_writes as registers_last_written, other_value, kind_transfer, transfer_then, effect_then, DoAll};

use om_flow::Transfer;
use om_graph::{BlockId, Graph, Last, OpKind};
use om_isa::{Access, BrOp, Instr, Reg, access_kind, reads, writes};

/// What words do to the registers. Bit r of a mask is register r; r31 is never read.
#[derive(Clone, Copy)]
pub struct Effect {
    /// The registers that they read before they write them.
    pub reads: u32,
    /// The registers that they write.
    pub writes: u32,
    /// What they leave in r29.
    pub transfer: Transfer,
}

fn bit(r: Reg) -> u32
    ensures { result ≡ reg_bit r }
{
    if r.num() == 31 { 0 } else { 1 << r.num() }
}

fn base_bit(i: &Instr) -> u32
    ensures { result ≡ reg_bit (base_of i.now) }
{
    match *i {
        Instr::Mem { rb, .. } => bit(rb),
        _ => 0,
    }
}

fn stored(access: Access, m: u32, ra: Reg) -> u32
    ensures { result ≡ mask_onto m (stored_reads access ra) }
{
    match access {
        Access::Store => m | bit(ra),
        _ => m,
    }
}

fn with_used(m: u32, i: &Instr) -> u32
    ensures { result ≡ mask_onto m (used_reads i.now) }
{
    match *i {
        Instr::Mem { op, ra, .. } => stored(access_kind(op), m, ra),
        _ => m,
    }
}

/// The registers that an op reads, as bits. r31 has none.
pub fn reads_of(kind: &OpKind) -> u32
    ensures { result ≡ mask_of (kind_reads kind.now) }
{
    match *kind {
        OpKind::Plain(i) => reads(&i),
        OpKind::Lit { ra, rb, .. } => { if ra.num() == 31 { 0 } else { bit(rb) } }
        OpKind::AddrLda { rb, .. } => bit(rb),
        OpKind::AddrHi { rb, .. } => bit(rb),
        OpKind::UseLo { instr, .. } => with_used(base_bit(&instr), &instr),
        OpKind::UseGp { instr, gp, .. } => with_used(bit(gp), &instr),
        OpKind::GpHi { rb, .. } => bit(rb),
        OpKind::GpLo { rb, .. } => bit(rb),
    }
}

/// The registers that an op writes, as bits. r31 has none.
pub fn writes_of(kind: &OpKind) -> u32
    ensures { result ≡ mask_of (kind_writes kind.now) }
{
    match *kind {
        OpKind::Plain(i) => writes(&i),
        OpKind::Lit { ra, .. } => bit(ra),
        OpKind::AddrLda { ra, .. } => bit(ra),
        OpKind::AddrHi { ra, .. } => bit(ra),
        OpKind::UseLo { instr, .. } => writes(&instr),
        OpKind::UseGp { instr, .. } => writes(&instr),
        OpKind::GpHi { ra, .. } => bit(ra),
        OpKind::GpLo { ra, .. } => bit(ra),
    }
}

fn branch_read(op: BrOp, ra: Reg) -> u32
    ensures { result ≡ mask_of (branch_reads op ra) }
{
    match op {
        BrOp::Br => 0,
        BrOp::Bsr => 0,
        BrOp::If(_) => bit(ra),
    }
}

fn branch_written(op: BrOp, ra: Reg) -> u32
    ensures { result ≡ mask_of (branch_writes op ra) }
{
    match op {
        BrOp::Br => bit(ra),
        BrOp::Bsr => bit(ra),
        BrOp::If(_) => 0,
    }
}

/// The registers that the word that ends a block reads, as bits.
pub fn last_reads(last: &Last) -> u32
    ensures { result ≡ mask_of (registers_last_read last.now) }
{
    match *last {
        Last::Fall => 0,
        Last::Off => 0,
        Last::Br { op, ra, .. } => branch_read(op, ra),
        Last::Cond { instr, .. } => reads(&instr),
        Last::Call { op, ra, .. } => branch_read(op, ra),
        Last::CallBy { instr, .. } => reads(&instr),
        Last::JumpBy { instr, .. } => reads(&instr),
    }
}

/// The registers that the word that ends a block writes, as bits.
pub fn last_writes(last: &Last) -> u32
    ensures { result ≡ mask_of (registers_last_written last.now) }
{
    match *last {
        Last::Fall => 0,
        Last::Off => 0,
        Last::Br { op, ra, .. } => branch_written(op, ra),
        Last::Cond { instr, .. } => writes(&instr),
        Last::Call { op, ra, .. } => branch_written(op, ra),
        Last::CallBy { instr, .. } => writes(&instr),
        Last::JumpBy { instr, .. } => writes(&instr),
    }
}

// What words that write these registers leave in r29, where they are no low half of a pair.
fn other(written: u32) -> Transfer
    ensures { (rs : List ℕ) → written ≡ mask_of rs → result ≡ other_value (has rs 29) }
{
    if (written >> 29) % 2 == 1 {
        Transfer::SetUnknown
    } else {
        Transfer::Keep
    }
}

/// What an op leaves in r29, where its object has the table: the table's global pointer, where it is the low half of a pair
/// that writes r29; where another op writes it, another value.
pub fn transfer_of(kind: &OpKind, table: u32) -> Transfer
    ensures { result ≡ kind_transfer table kind.now }
{
    match *kind {
        OpKind::GpLo { ra, .. } => {
            if ra.num() == 29 {
                Transfer::SetTable(table)
            } else {
                Transfer::Keep
            }
        }
        _ => other(writes_of(kind)),
    }
}

fn both(t: Transfer, u: Transfer) -> Transfer
    ensures { result ≡ transfer_then t u }
{
    match u {
        Transfer::Keep => t,
        u => u,
    }
}

fn then(e: Effect, d: Effect) -> Effect
    ensures value { result ≡ effect_then e d }
    ensures small { result.writes < 2 ^ 32 }
{
    Effect {
        reads: e.reads | (d.reads & !e.writes),
        writes: e.writes | d.writes,
        transfer: both(e.transfer, d.transfer),
    }
}

// What an op does.
fn op_effect(kind: &OpKind, table: u32) -> Effect
    ensures reads { result.reads ≡ mask_of (kind_reads kind.now) }
    ensures writes { result.writes ≡ mask_of (kind_writes kind.now) }
    ensures transfer { result.transfer ≡ kind_transfer table kind.now }
{
    Effect {
        reads: reads_of(kind),
        writes: writes_of(kind),
        transfer: transfer_of(kind, table),
    }
}

// What the word that ends a block does, if there is one.
fn last_effect(last: &Last) -> Effect
    ensures reads { result.reads ≡ mask_of (registers_last_read last.now) }
    ensures writes { result.writes ≡ mask_of (registers_last_written last.now) }
    ensures transfer { result.transfer ≡ other_value (has (registers_last_written last.now) 29) }
{
    let writes = last_writes(last);
    Effect {
        reads: last_reads(last),
        writes,
        transfer: other(writes),
    }
}

/// What the words of a kept block do, those of its ops in order and the one that ends it. It takes no memory.
pub fn effect_of(g: &Graph, b: BlockId) -> Effect
    requires graph { IsGraph g.now }
    requires flow { HasFlow g.now }
    requires live { IsTrue (is_live_block g.now b) }
    ensures small { result.writes < 2 ^ 32 }
    ensures all { (x : AnyBlock) → block_of g.now b ≡ Some x →
        DoAll (table_of g.now x.label.obj) (block_words x) result }
{
    let table = g.table(g.label(b).obj);
    let mut e = Effect {
        reads: 0,
        writes: 0,
        transfer: Transfer::Keep,
    };
    let mut next = g.first_op(b);
    while let Some(o) = next {
        let op = g.op(o);
        e = then(e, op_effect(&op.kind, table));
        next = g.next_op(o);
    }
    let last = g.last(b);
    then(e, last_effect(&last))
}
