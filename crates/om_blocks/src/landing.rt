// The blocks at which jumps by a register may land.
ghost use Rattle.std.specs.Prelude.{◌≡◌, ◌<◌, ◌+◌, ◌++◌, ◌^◌, ℕ, Some, true, IsTrue, IfOk, OnOk, flat_map};
ghost use Rattle.om_value.specs.declared.value.Place.{Place as AnyPlace};
ghost use Rattle.om_graph.specs.View.{Block as AnyBlock, is_live_block, block_of, labelled};
ghost use Rattle.om_graph.specs.Held.{IsGraph};
ghost use Rattle.om_graph.specs.Run.{block_words, words};
ghost use Rattle.om_blocks.specs.IsFlow.{HasFlow};
ghost use Rattle.om_blocks.specs.Filling.{list_of, numbers_at, kind_code, link_place, places_of, places_behind, word_lands};

use om_graph::{BlockId, Graph, Last, OpKind};
use om_io::NoMemory;
use om_value::{Place, Target};
use std::alloc::Global;

/// The place in code of which an op loads the address.
pub fn code_of(kind: &OpKind) -> Option<Place>
    ensures { result ≡ kind_code kind.now }
{
    match *kind {
        OpKind::Lit {
            target: Target::Code(q),
            ..
        } => Some(q),
        _ => None,
    }
}

/// The place of the word that ends a block, where that writes a link register.
pub fn link_of(last: &Last) -> Option<Place>
    ensures { result ≡ link_place last.now }
{
    match *last {
        Last::Call { at, .. } => Some(at),
        Last::CallBy { at, .. } => Some(at),
        Last::Fall => None,
        Last::Off => None,
        Last::Br { .. } => None,
        Last::Cond { .. } => None,
        Last::JumpBy { .. } => None,
    }
}

// Adds the number of the kept block of a label.
fn add_place(lands: &mut Vec<u32>, g: &Graph, q: Place) -> Result<(), NoMemory>
    requires { (id : ℕ) → is_live_block g.now id ≡ true → id < 2 ^ 32 }
    ensures { OnOk result (lands.new.items ≡ lands.old.items ++ list_of (labelled g.now q)) }
{
    if let Some(b) = g.block(q) {
        lands.push(b.number() as u32)?;
    }
    Ok(())
}

// The same for what an op names.
fn add_code(lands: &mut Vec<u32>, g: &Graph, kind: &OpKind) -> Result<(), NoMemory>
    requires { (id : ℕ) → is_live_block g.now id ≡ true → id < 2 ^ 32 }
    ensures { OnOk result (lands.new.items ≡ lands.old.items
        ++ numbers_at g.now (places_of (kind_code kind.now))) }
{
    if let Some(q) = code_of(kind) {
        add_place(lands, g, q)?;
    }
    Ok(())
}

// The same for the place behind the word that ends a block.
fn add_link(lands: &mut Vec<u32>, g: &Graph, last: &Last) -> Result<(), NoMemory>
    requires numbers { (id : ℕ) → is_live_block g.now id ≡ true → id < 2 ^ 32 }
    requires fits { (at : AnyPlace) → link_place last.now ≡ Some at → at.off + 4 < 2 ^ 32 }
    ensures { OnOk result (lands.new.items ≡ lands.old.items
        ++ numbers_at g.now (places_behind (link_place last.now))) }
{
    if let Some(at) = link_of(last) {
        let next = Place {
            obj: at.obj,
            off: at.off + 4,
        };
        add_place(lands, g, next)?;
    }
    Ok(())
}

// The same for all that a block names.
fn add_block(lands: &mut Vec<u32>, g: &Graph, b: BlockId) -> Result<(), NoMemory>
    requires graph { IsGraph g.now }
    requires flow { HasFlow g.now }
    requires live { IsTrue (is_live_block g.now b) }
    requires numbers { (id : ℕ) → is_live_block g.now id ≡ true → id < 2 ^ 32 }
    ensures { OnOk result ((x : AnyBlock) → block_of g.now b ≡ Some x →
        lands.new.items ≡ lands.old.items
        ++ numbers_at g.now (flat_map word_lands (block_words x))) }
{
    let mut next = g.first_op(b);
    while let Some(o) = next {
        let op = g.op(o);
        add_code(lands, g, &op.kind)?;
        next = g.next_op(o);
    }
    let last = g.last(b);
    add_link(lands, g, &last)?;
    Ok(())
}

// The same for all roots.
fn roots_of(alloc: Global, g: &Graph) -> Result<Vec<u32>, NoMemory>
    requires { (id : ℕ) → is_live_block g.now id ≡ true → id < 2 ^ 32 }
    ensures { IfOk result (λ v. v.items ≡ numbers_at g.now g.now.roots) }
{
    let mut lands = Vec::new(alloc);
    for root in g.roots() {
        add_place(&mut lands, g, *root)?;
    }
    Ok(lands)
}

// The numbers of the kept blocks at landing places. A number may stand there more than once.
pub(crate) fn lands_of(alloc: Global, g: &Graph) -> Result<Vec<u32>, NoMemory>
    requires graph { IsGraph g.now }
    requires flow { HasFlow g.now }
    requires numbers { (id : ℕ) → is_live_block g.now id ≡ true → id < 2 ^ 32 }
    ensures { IfOk result (λ v. v.items ≡
        numbers_at g.now (g.now.roots ++ flat_map word_lands (words g.now))) }
{
    let mut lands = roots_of(alloc, g)?;
    let mut next = g.first_block();
    while let Some(b) = next {
        add_block(&mut lands, g, b)?;
        next = g.next_block(b);
    }
    Ok(lands)
}
