//! The check of masks. It takes no memory.
ghost use Rattle.std.specs.Prelude.{◌≡◌, ◌↔◌, ◌<◌, ℕ, IsTrue, Some, None, get_or};
ghost use Rattle.om_graph.specs.Held.{IsGraph};
ghost use Rattle.om_graph.specs.View.{Block as AnyBlock, is_live_block, Has};
ghost use Rattle.om_graph.specs.Checks.{MaskChecked};
ghost use Rattle.om_blocks.specs.declared.exits.Exit.TheVariants.{Block as ToBlock};
ghost use Rattle.om_blocks.specs.IsFlow.{HasFlow};
ghost use Rattle.om_blocks.specs.Found.{masks_in, all_registers};
ghost use Rattle.om_live.specs.Passing.{Covers, with_exit as mask_with_exit, Passes, PassesMore};

use crate::masks::Live;
use crate::outs::landed;
use om_blocks::{Exit, effect_of, exit_of, fall_of};
use om_graph::{BlockId, Graph};

// Whether a mask has each register that is live and not written. r31 does not count.
fn covers(mask: u32, live: u32, writes: u32) -> bool
    ensures { IsTrue result ↔ Covers mask live writes }
{
    let missing = live & !writes & !mask;
    missing & 0x7FFF_FFFF == 0
}

// Whether it has those of the mask of the block where the last word goes, other than by a register.
fn at_exit(l: &Live, exit: &Exit, mask: u32, writes: u32) -> bool
    ensures { IsTrue result ↔
        ((id : ℕ) → exit.now ≡ ToBlock id → Covers mask (get_or l.now id all_registers) writes) }
{
    match *exit {
        Exit::Block(b) => covers(mask, l.mask(b), writes),
        Exit::Nowhere => true,
        Exit::ByRegister => true,
    }
}

// The same where a block falls.
fn at_fall(l: &Live, next: Option<BlockId>, mask: u32, writes: u32) -> bool
    ensures { IsTrue result ↔
        ((id : ℕ) → next ≡ Some id → Covers mask (get_or l.now id all_registers) writes) }
{
    match next {
        Some(b) => covers(mask, l.mask(b), writes),
        None => true,
    }
}

fn with_exit(exit: &Exit, out: u32, mask: u32, writes: u32) -> u32
    ensures { result ≡ mask_with_exit exit.now out mask writes }
{
    match *exit {
        Exit::ByRegister => out & (mask | writes),
        Exit::Nowhere => out,
        Exit::Block(_) => out,
    }
}

// Whether a block's mask has what it must, but for jumps by a register; and what all that jump so far have.
fn step(g: &Graph, l: &Live, b: BlockId, out: u32) -> Option<u32>
    requires graph { IsGraph g.now }
    requires flow { HasFlow g.now }
    requires live { IsTrue (is_live_block g.now b) }
    ensures some { (new : ℕ) → result ≡ Some new → (x : AnyBlock) → Has g.now.blocks x → x.id ≡ b
        → PassesMore g.now l.now x out new }
    ensures none { result ≡ None → MaskChecked (masks_in g.now l.now) g.now → ⊥ }
{
    let last = g.last(b);
    let exit = exit_of(g, &last);
    let effect = effect_of(g, b);
    let mask = l.mask(b);
    if !covers(mask, effect.reads, 0) {
        return None;
    }
    if !at_exit(l, &exit, mask, effect.writes) {
        return None;
    }
    if !at_fall(l, fall_of(g, b, &last), mask, effect.writes) {
        return None;
    }
    Some(with_exit(&exit, out, mask, effect.writes))
}

// The same for all blocks.
fn passed(g: &Graph, l: &Live) -> Option<u32>
    requires graph { IsGraph g.now }
    requires flow { HasFlow g.now }
    ensures some { (out : ℕ) → result ≡ Some out → Passes g.now l.now g.now.blocks out }
    ensures none { result ≡ None → MaskChecked (masks_in g.now l.now) g.now → ⊥ }
{
    let mut out = 0x7FFF_FFFF;
    let mut next = g.first_block();
    while let Some(b) = next {
        match step(g, l, b, out) {
            Some(left) => out = left,
            None => return None,
        }
        next = g.next_block(b);
    }
    Some(out)
}

/// Whether each mask has the registers that may be read from its block's start on, whoever made them: those that the block
/// reads before it writes them, and those that it does not write in the mask of each block that a walk enters from its end.
/// r31 does not count. The graph is of a program. It takes no memory.
pub fn check(g: &Graph, l: &Live) -> bool
    requires { HasFlow g.now }
    ensures { IsTrue result ↔ MaskChecked (masks_in g.now l.now) g.now }
{
    g.is_graph();
    match passed(g, l) {
        Some(out) => covers(out, landed(g, l), 0),
        None => false,
    }
}
