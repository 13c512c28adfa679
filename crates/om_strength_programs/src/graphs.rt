// Callers of om_graph.
ghost use Rattle.std.specs.Prelude.{◌≡◌, ◌<◌, length, IfSome, IsTrue};
ghost use Rattle.om_graph.specs.View.{is_live_block, is_live_op, labelled, block_id_after, table_set};
ghost use Rattle.om_graph.specs.View.{replaced, deleted, last_set, dropped};

use om_graph::{BlockId, Graph, Last, OpId, OpKind};
use om_value::Place;

/// Gives an object another table.
pub fn set_table(graph: &mut Graph, obj: u32, table: u32)
    requires { obj < length graph.old.counts }
    ensures { graph.new ≡ table_set graph.old obj table }
{
    graph.set_table(obj, table)
}

/// The kept block of a label.
pub fn block(graph: &Graph, label: Place) -> Option<BlockId>
    ensures block { result ≡ labelled graph.now label }
    ensures live { IfSome result (λ b. IsTrue (is_live_block graph.now b)) }
{
    graph.block(label)
}

/// The kept block behind another.
pub fn next_block(graph: &Graph, b: BlockId) -> Option<BlockId>
    requires { IsTrue (is_live_block graph.now b) }
    ensures next { result ≡ block_id_after b graph.now.blocks }
    ensures live { IfSome result (λ next. IsTrue (is_live_block graph.now next)) }
{
    graph.next_block(b)
}

/// Gives an op another kind.
pub fn replace(graph: &mut Graph, o: OpId, kind: OpKind)
    requires { IsTrue (is_live_op graph.old o) }
    ensures { graph.new ≡ replaced graph.old o kind }
{
    graph.replace(o, kind);
}

/// Takes an op out.
pub fn delete(graph: &mut Graph, o: OpId)
    requires { IsTrue (is_live_op graph.old o) }
    ensures { graph.new ≡ deleted graph.old o }
{
    graph.delete(o);
}

/// Gives a block another end.
pub fn set_last(graph: &mut Graph, b: BlockId, last: Last)
    requires { IsTrue (is_live_block graph.old b) }
    ensures { graph.new ≡ last_set graph.old b last }
{
    graph.set_last(b, last);
}

/// Drops a block.
pub fn drop_block(graph: &mut Graph, b: BlockId)
    requires { IsTrue (is_live_block graph.old b) }
    ensures { graph.new ≡ dropped graph.old b }
{
    graph.drop_block(b);
}
