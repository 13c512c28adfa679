// The kept words of a graph, walked block by block.
ghost use Rattle.std.specs.Prelude.{◌≡◌, ◌++◌, ◌∷◌, [], IfOk, IsTrue, List};
ghost use Rattle.om_prog.specs.Act.{Word};
ghost use Rattle.om_graph.specs.Held.{IsGraph};
ghost use Rattle.om_graph.specs.View.{is_live_block};
ghost use Rattle.om_graph.specs.Run.{words, op_word, last_words};
ghost use Rattle.om_graph.specs.declared.op.Op.{Op as AnyOp};
ghost use Rattle.om_layout.specs.Walked.{Lists, IsWordOf, kind_target, last_place, words_of_block};

use om_graph::{BlockId, Graph, Last, Op, OpKind};
use om_io::NoMemory;
use om_value::{Place, Target};
use std::alloc::Global;

// A kept load of an address, in an object.
#[derive(Clone, Copy)]
pub(crate) struct Load {
    pub(crate) obj: u32,
    pub(crate) target: Target,
}

// The places of words, and the loads among them, in order.
#[derive(Drop)]
pub(crate) struct Words {
    pub(crate) places: Vec<Place>,
    pub(crate) loads: Vec<Load>,
}

// What a load of an address loads.
fn target_of(kind: OpKind) -> Option<Target>
    ensures { result ≡ kind_target kind }
{
    match kind {
        OpKind::Lit { target, .. } => Some(target),
        _ => None,
    }
}

// The place of the word that ends a block.
fn place_of(last: Last) -> Option<Place>
    ensures { result ≡ last_place last }
{
    match last {
        Last::Fall => None,
        Last::Off => None,
        Last::Br { at, .. } => Some(at),
        Last::Cond { at, .. } => Some(at),
        Last::Call { at, .. } => Some(at),
        Last::CallBy { at, .. } => Some(at),
        Last::JumpBy { at, .. } => Some(at),
    }
}

impl Words {
    // One more word.
    fn add(&mut self, at: Place, target: Option<Target>) -> Result<(), NoMemory>
        ensures { IfOk result (λ u. (ws : List Word) (w : Word) → IsWordOf at target w → Lists ws self.old → Lists (ws ++ w ∷ []) self.new) }
    {
        if let Some(target) = target {
            self.loads.push(Load {
                obj: at.obj,
                target,
            })?;
        }
        self.places.push(at)?;
        Ok(())
    }

    // The word of an op.
    fn add_op(&mut self, op: Op) -> Result<(), NoMemory>
        ensures { IfOk result (λ u. (ws : List Word) (ops : List AnyOp) → Lists ws self.old → Lists (ws ++ op_word ops op ∷ []) self.new) }
    {
        self.add(op.place, target_of(op.kind))
    }

    // The word that ends a block, where there is one.
    fn add_last(&mut self, last: Last) -> Result<(), NoMemory>
        ensures { IfOk result (λ u. (ws : List Word) → Lists ws self.old → Lists (ws ++ last_words last) self.new) }
    {
        match place_of(last) {
            Some(at) => self.add(at, None),
            None => Ok(()),
        }
    }

    // The words of a block.
    fn add_block(&mut self, graph: &Graph, b: BlockId) -> Result<(), NoMemory>
        requires graph { IsGraph graph.now }
        requires live { IsTrue (is_live_block graph.now b) }
        ensures { IfOk result (λ u. (ws : List Word) → Lists ws self.old → Lists (ws ++ words_of_block graph.now b) self.new) }
    {
        let mut next = graph.first_op(b);
        while let Some(o) = next {
            self.add_op(graph.op(o))?;
            next = graph.next_op(o);
        }
        self.add_last(graph.last(b))
    }

    // The kept words of a graph.
    pub(crate) fn of(alloc: Global, graph: &Graph) -> Result<Words, NoMemory>
        ensures { IfOk result (λ all. Lists (words graph.now) all) }
    {
        graph.is_graph();
        let mut all = Words {
            places: Vec::new(alloc),
            loads: Vec::new(alloc),
        };
        let mut next = graph.first_block();
        while let Some(b) = next {
            all.add_block(graph, b)?;
            next = graph.next_block(b);
        }
        Ok(all)
    }
}
