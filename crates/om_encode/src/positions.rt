// Image words at the positions that a layout gives them, and which words of the program are kept.
ghost use Rattle.std.specs.Prelude.{◌≡◌, ◌+◌, ◌<◌, Some, IsTrue, length, slice_set, slice_index_or};
ghost use Rattle.om_graph.specs.View.{Block, block_of, is_live_block};
ghost use Rattle.om_graph.specs.Run.{block_words, words as words_of};
ghost use Rattle.om_graph.specs.Index.{index_of};
ghost use Rattle.om_layout.specs.Layout.{position_of};
ghost use Rattle.om_encode.specs.Encoded.{op_words};
ghost use Rattle.om_encode.specs.Positions.{filled, marked, no_word, with_word, with_words, with_last, last_place as place_of_last, HasRoom};

use om_graph::{BlockId, Graph, Last};
use om_image::MapWord;
use om_layout::Layout;
use om_value::Place;

/// An image's text and the words of its map, while kept words are put in.
#[derive(Drop)]
pub(crate) struct Placing {
    /// The image words by their positions.
    pub(crate) text: Vec<u32>,
    /// What the map says of the program's words.
    pub(crate) words: Vec<MapWord>,
    /// How many kept words were put in.
    pub(crate) count: usize,
}

// Marks a word as kept.
fn mark(words: &mut Vec<MapWord>, at: usize)
    requires { at < length words.old.items }
    ensures { words.new.items ≡ slice_set words.old.items at (marked (slice_index_or words.old.items at no_word)) }
{
    words[at].kept = true;
}

// Puts in the next kept word, which stands at a place. Its image word is the next of `listed`.
fn put_word(graph: &Graph, layout: &Layout, listed: &[u32], at: Place, placing: &mut Placing)
    requires object { at.obj < length graph.now.counts }
    requires text { position_of layout.now at < length placing.old.text.items }
    requires words { index_of graph.now.counts at < length placing.old.words.items }
    requires count { placing.old.count < length listed.now }
    ensures { filled placing.new ≡ with_word graph.now layout.now listed.now (filled placing.old) at }
{
    let position = layout.position(at) as usize;
    placing.text[position] = listed[placing.count];
    mark(&mut placing.words, graph.index(at) as usize);
    placing.count += 1;
}

// Where the word at a block's end stands, if there is one.
fn last_place(last: Last) -> Option<Place>
    ensures { result ≡ place_of_last last }
{
    match last {
        Last::Fall | Last::Off => None,
        Last::Br { at, .. } => Some(at),
        Last::Cond { at, .. } => Some(at),
        Last::Call { at, .. } => Some(at),
        Last::CallBy { at, .. } => Some(at),
        Last::JumpBy { at, .. } => Some(at),
    }
}

// Puts in the words of a block's ops.
fn put_ops(graph: &Graph, layout: &Layout, listed: &[u32], block: BlockId, placing: &mut Placing)
    requires live { IsTrue (is_live_block graph.now block) }
    requires room { (b : Block) → block_of graph.now block ≡ Some b
        → HasRoom graph.now layout.now listed.now (filled placing.old) (op_words b) }
    ensures { (b : Block) → block_of graph.now block ≡ Some b
        → filled placing.new ≡ with_words graph.now layout.now listed.now (filled placing.old) (op_words b) }
{
    graph.is_graph();
    let mut next = graph.first_op(block);
    while let Some(id) = next {
        put_word(graph, layout, listed, graph.op(id).place, placing);
        next = graph.next_op(id);
    }
}

// Puts in the words of a block.
fn put_block(graph: &Graph, layout: &Layout, listed: &[u32], block: BlockId, placing: &mut Placing)
    requires live { IsTrue (is_live_block graph.now block) }
    requires room { (b : Block) → block_of graph.now block ≡ Some b
        → HasRoom graph.now layout.now listed.now (filled placing.old) (block_words b) }
    ensures { (b : Block) → block_of graph.now block ≡ Some b
        → filled placing.new ≡ with_words graph.now layout.now listed.now (filled placing.old) (block_words b) }
{
    put_ops(graph, layout, listed, block, placing);
    if let Some(at) = last_place(graph.last(block)) {
        put_word(graph, layout, listed, at, placing);
    }
}

/// Puts in all kept words of a graph, whose image words are listed in order of object and offset. Takes linear time and
/// no memory.
pub(crate) fn put_words(graph: &Graph, layout: &Layout, listed: &[u32], placing: &mut Placing)
    requires room { HasRoom graph.now layout.now listed.now (filled placing.old) (words_of graph.now) }
    ensures { filled placing.new ≡ with_words graph.now layout.now listed.now (filled placing.old) (words_of graph.now) }
{
    graph.is_graph();
    let mut next = graph.first_block();
    while let Some(block) = next {
        put_block(graph, layout, listed, block, placing);
        next = graph.next_block(block);
    }
}
