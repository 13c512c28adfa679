// Places of one graph, by the words between them.
ghost use Rattle.std.specs.Prelude.{◌≡◌, ◌↔◌, ◌<◌, ◌≤◌, ◌+◌, ◌%◌, ◌^◌, IsTrue, length};
ghost use Rattle.om_graph.specs.Form.{text_size};
ghost use Rattle.om_graph.specs.Index.{InReach};
ghost use Rattle.om_graph.specs.Uses.{IsTextsLast};

use om_graph::Graph;
use om_value::Place;

// A branch goes at most so many words forward from its own place, and one less back.
const FARTHEST: u64 = 1_048_576;

// Whether a branch at a place reaches another.
pub(crate) fn in_reach(g: &Graph, at: Place, to: Place) -> bool
    requires at { at.obj < length g.now.counts }
    requires to { to.obj < length g.now.counts }
    ensures { IsTrue result ↔ InReach g.now.counts at to }
{
    let from = g.index(at);
    let target = g.index(to);
    if target <= from {
        from - target < FARTHEST
    } else {
        target - from <= FARTHEST
    }
}

// Whether the word at a place is the last one of its text.
pub(crate) fn is_texts_last(g: &Graph, p: Place) -> bool
    requires object { p.obj < length g.now.counts }
    requires small { text_size g.now p.obj < 2 ^ 32 }
    requires aligned { p.off % 4 ≡ 0 }
    requires inside { p.off + 4 ≤ text_size g.now p.obj }
    ensures { IsTrue result ↔ IsTextsLast g.now p }
{
    let end = Place {
        obj: p.obj,
        off: u32::MAX,
    };
    g.index(end) - g.index(p) == 1
}
