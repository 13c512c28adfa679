// Where control goes from the end of a block.
ghost use Rattle.std.specs.Prelude.{◌≡◌, ◌<◌, ℕ, IsTrue, IfSome};
ghost use Rattle.om_graph.specs.View.{is_live_block, labelled, block_id_after};
ghost use Rattle.om_graph.specs.Outs.{falls_on};
ghost use Rattle.om_blocks.specs.declared.exits.Exit.TheVariants.{Block as ToBlock};
ghost use Rattle.om_blocks.specs.Exits.{exit_at, last_exit, in_text, next_fallen};

use om_graph::{BlockId, Graph, Last};
use om_value::Place;

/// Where the word that ends a block goes.
#[derive(Clone, Copy)]
pub enum Exit {
    /// To no kept block.
    Nowhere,
    /// To this one.
    Block(BlockId),
    /// By a register, so to the block of each kept landing place.
    ByRegister,
}

// To the kept block of a label.
fn exit_to(g: &Graph, label: Place) -> Exit
    ensures exit { result ≡ exit_at (labelled g.now label) }
    ensures live { (id : ℕ) → result ≡ ToBlock id → IsTrue (is_live_block g.now id) }
{
    match g.block(label) {
        Some(b) => Exit::Block(b),
        None => Exit::Nowhere,
    }
}

/// Where the word that ends a block goes. A call goes to its target, and not to the place behind it. It takes no memory.
pub fn exit_of(g: &Graph, last: &Last) -> Exit
    ensures exit { result ≡ last_exit g.now last.now }
    ensures live { (id : ℕ) → result ≡ ToBlock id → IsTrue (is_live_block g.now id) }
{
    match *last {
        Last::Fall => Exit::Nowhere,
        Last::Off => Exit::Nowhere,
        Last::Br { to, .. } => exit_to(g, to),
        Last::Cond { to, .. } => exit_to(g, to),
        Last::Call { to, .. } => exit_to(g, to),
        Last::CallBy { .. } => Exit::ByRegister,
        Last::JumpBy { .. } => Exit::ByRegister,
    }
}

fn falls(last: &Last) -> bool
    ensures { result ≡ falls_on last.now }
{
    match *last {
        Last::Fall => true,
        Last::Cond { .. } => true,
        Last::Off => false,
        Last::Br { .. } => false,
        Last::Call { .. } => false,
        Last::CallBy { .. } => false,
        Last::JumpBy { .. } => false,
    }
}

// The block behind another, where it is of the same text.
fn next_in_text(g: &Graph, b: BlockId) -> Option<BlockId>
    requires { IsTrue (is_live_block g.now b) }
    ensures next { result ≡ in_text g.now b (block_id_after b g.now.blocks) }
    ensures live { IfSome result (λ n. IsTrue (is_live_block g.now n)) }
{
    match g.next_block(b) {
        Some(next) => {
            if g.label(next).obj == g.label(b).obj {
                Some(next)
            } else {
                None
            }
        }
        None => None,
    }
}

/// The block that a block with this end falls into, if there is one. It takes no memory.
pub fn fall_of(g: &Graph, b: BlockId, last: &Last) -> Option<BlockId>
    requires { IsTrue (is_live_block g.now b) }
    ensures next { result ≡ next_fallen g.now b last.now }
    ensures live { IfSome result (λ n. IsTrue (is_live_block g.now n)) }
{
    if falls(last) {
        next_in_text(g, b)
    } else {
        None
    }
}
