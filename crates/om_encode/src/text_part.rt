// The text of an image with the words of its map.
ghost use Rattle.std.specs.Prelude.{IfOk};
ghost use Rattle.om_encode.specs.Encoded.{IsEncodable, IsTextOf, AreMapWords};

use crate::map_walk::map_words_of;
use crate::positions::{Placing, put_words};
use crate::text_walk::text_of;
use om_graph::Graph;
use om_image::MapWord;
use om_io::{Listed, NoMemory};
use om_layout::Layout;
use om_prog::Program;
use std::alloc::Global;

/// The image words of the kept words, and what the map says of each word of the program.
#[derive(Drop)]
pub(crate) struct TextPart {
    pub(crate) text: Listed<u32>,
    pub(crate) words: Listed<MapWord>,
}

/// The text of an image and the words of its map.
///
/// Takes time near-linear in the words of the program, and memory for what it gives. `NoMemory` comes where memory
/// runs out, and nowhere else.
pub(crate) fn encode_text(
    alloc: Global,
    graph: &Graph,
    program: &Program,
    layout: &Layout,
) -> Result<TextPart, NoMemory>
    requires { IsEncodable program.now graph.now layout.now }
    ensures text { IfOk result (λ part. IsTextOf program.now graph.now layout.now part.text) }
    ensures words { IfOk result (λ part. AreMapWords program.now graph.now layout.now part.words) }
{
    let listed = text_of(alloc, graph, program, layout)?;
    let text = vec![in alloc; 0; listed.len()]?;
    let words = map_words_of(alloc, program, layout)?;
    let mut placing = Placing {
        text,
        words,
        count: 0,
    };
    put_words(graph, layout, listed.as_slice(), &mut placing);
    let Placing { text, words, .. } = placing;
    Ok(TextPart {
        text: Listed::from_vec(text),
        words: Listed::from_vec(words),
    })
}
