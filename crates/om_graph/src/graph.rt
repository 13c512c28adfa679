//! The graph and its calls.
ghost use Rattle.std.specs.Prelude.{◌≡◌, ◌<◌, ◌^◌, ℕ, length, Some, IfSome, IfOk, OnErr, IsTrue, slice_index_or, true, false};
ghost use Rattle.om_graph.specs.Held.{IsGraph};
ghost use Rattle.om_graph.specs.View.{is_live_block, is_live_op, IsAfter, made, block_added, op_added, labelled, label_of, opening_of, last_of, op_of, first_block_id, block_id_after, first_op_of, next_op_of, next_touched_of, replaced, deleted, last_set, dropped, table_set, cleared};
ghost use Rattle.om_graph.specs.Index.{index_of};
ghost use Rattle.om_graph.specs.Numbers.{number_of, AreNumbered};

use crate::ids::{BlockId, OpId};
use crate::op::{Last, Op, OpKind};
use crate::parts::{
    Row, clear_rows, count_up_to, drop_row, end_row, first_near, first_touched, note_near,
    numbered, place_before, touch_row,
};
use crate::starts::starts_and_tables;
use om_arena::{Arena, ListId};
use om_io::NoMemory;
use om_value::Place;
use std::alloc::Global;
use std::marker::Model;

/// The blocks of a program, the table of each object, and which blocks were touched.
///
/// All ops stand in one arena, each block's in a list of its own. The kept blocks stand in another, in one list in
/// order of object and offset.
#[derive(Drop)]
pub struct Graph {
    // The number of words of each object.
    counts: Vec<u32>,
    // The number of words before each object.
    starts: Vec<u64>,
    roots: Vec<Place>,
    tables: Vec<u32>,
    // All blocks that were added, in order of their labels, each at the number of its list of ops.
    rows: Vec<Row>,
    // For each word of the program the number of a row: of the last that was added whose label has the word's index. A
    // label is looked for there first.
    near: Vec<u32>,
    kept: Arena<ListId>,
    // The one list of `kept`.
    order: ListId,
    ops: Arena<Op>,
}

impl Model for Graph {
    ghost use Rattle.om_graph.specs.View.{GraphView};

    ghost Value = { GraphView };

    ghost use Rattle.om_graph.specs.Laid.{seen_graph, IsLaid};

    ghost view = { λ g. seen_graph g.counts.items g.roots.items g.tables.items g.rows.items g.ops.lists };

    ghost invariant = { λ g. IsLaid g.counts.items g.starts.items g.roots.items g.tables.items g.rows.items g.kept.lists g.order g.ops.lists };
}

impl Graph {
    /// A graph without blocks, of objects that have so many words each. Object i has table i. The first root is the
    /// entry, the others are the places that initial fields name.
    pub fn new(alloc: Global, texts: &[u32], roots: &[Place]) -> Result<Graph, NoMemory>
        requires objects { length texts.now < 2 ^ 32 }
        requires roots { 0 < length roots.now }
        ensures { IfOk result (λ g. g ≡ made texts.now roots.now) }
    {
        let mut kept = Arena::new(alloc);
        let Ok(order) = kept.add_list() else {
            return Err(NoMemory);
        };
        let (starts, tables) = starts_and_tables(alloc, texts)?;
        Ok(Graph {
            counts: Vec::from_slice(alloc, texts)?,
            starts,
            roots: Vec::from_slice(alloc, roots)?,
            tables,
            rows: Vec::new(alloc),
            near: first_near(alloc, texts)?,
            kept,
            order,
            ops: Arena::new(alloc),
        })
    }

    /// The number of objects.
    pub fn objects(&self) -> u32
        ensures { result ≡ length self.now.counts }
    {
        self.counts.len() as u32
    }

    /// The number of words of the program before `p`, in order of object and offset. It takes no memory.
    pub fn index(&self, p: Place) -> u64
        requires { p.obj < length self.now.counts }
        ensures { result ≡ index_of self.now.counts p }
    {
        let obj = p.obj as usize;
        let words = (p.off as u64 + 3) / 4;
        self.starts[obj] + words.min(self.counts[obj] as u64)
    }

    // The place of a label in `near`, or one past its end.
    fn near_place(&self, label: Place) -> usize {
        if label.obj as usize >= self.counts.len() {
            return self.near.len();
        }
        self.index(label) as usize
    }

    // A row to look at first for a label.
    fn near_row(&self, label: Place) -> usize {
        let at = self.near_place(label);
        if at < self.near.len() {
            self.near[at] as usize
        } else {
            0
        }
    }

    /// The entry, then the places that initial fields name.
    pub fn roots(&self) -> &[Place]
        ensures { result.now ≡ self.now.roots }
    {
        self.roots.as_slice()
    }

    /// The table of an object.
    pub fn table(&self, obj: u32) -> u32
        requires { obj < length self.now.counts }
        ensures { result ≡ slice_index_or self.now.tables obj 0 }
    {
        self.tables[obj as usize]
    }

    /// Gives an object another table.
    pub fn set_table(&mut self, obj: u32, table: u32)
        requires { obj < length self.old.counts }
        ensures { self.new ≡ table_set self.old obj table }
    {
        self.tables[obj as usize] = table;
    }

    /// Adds a block without ops behind all others. It ends its text.
    pub fn add_block(&mut self, label: Place, opening: bool) -> Result<BlockId, NoMemory>
        requires { IsAfter self.old.labels label }
        ensures fresh { IfOk result (λ b. is_live_block self.old b ≡ false) }
        ensures added { IfOk result (λ b. self.new ≡ block_added self.old b label opening) }
        ensures refused { OnErr result (self.new ≡ self.old) }
    {
        let at = self.near_place(label);
        self.rows.reserve(1)?;
        if self.kept.reserve(1).is_err() {
            return Err(NoMemory);
        }
        let Ok(list) = self.ops.add_list() else {
            return Err(NoMemory);
        };
        note_near(&mut self.near, at, self.rows.len());
        let kept = Some(self.kept.push_back(self.order, list));
        self.rows.push_reserved(Row {
            label,
            opening,
            touched: false,
            last: Last::Off,
            kept,
        });
        Ok(BlockId::new(list))
    }

    /// Adds an op as its block's last.
    pub fn add_op(&mut self, b: BlockId, op: Op) -> Result<OpId, NoMemory>
        requires { IsTrue (is_live_block self.old b) }
        ensures fresh { IfOk result (λ o. is_live_op self.old o ≡ false) }
        ensures added { IfOk result (λ o. self.new ≡ op_added self.old b (record { id = o; op = op })) }
        ensures refused { OnErr result (self.new ≡ self.old) }
    {
        let Op { place, kind } = op;
        if self.ops.reserve(1).is_err() {
            return Err(NoMemory);
        }
        Ok(OpId::new(self.ops.push_back(b.list(), Op { place, kind })))
    }

    /// The kept block of a label. None comes exactly where no kept block has it. It takes no memory.
    pub fn block(&self, label: Place) -> Option<BlockId>
        ensures block { result ≡ labelled self.now label }
        ensures live { IfSome result (λ b. IsTrue (is_live_block self.now b)) }
    {
        let at = place_before(self.rows.as_slice(), self.near_row(label), label);
        if at >= self.rows.len() {
            return None;
        }
        let row = self.rows[at];
        if row.label == label {
            self.kept.ids_differ();
            numbered(&self.kept, row.kept)
        } else {
            None
        }
    }

    /// How many blocks the graph was made with: the number of each block is below it.
    pub fn rows(&self) -> usize
        ensures { (id : ℕ) → is_live_block self.now id ≡ true → id < result }
    {
        self.rows.len()
    }

    /// The number of the block that the graph was made with at a label, also where that block is dropped. None comes
    /// exactly where it was made with none there. It takes no memory.
    pub fn number(&self, label: Place) -> Option<usize>
        ensures { result ≡ number_of self.now label }
    {
        let row = place_before(self.rows.as_slice(), self.near_row(label), label);
        if row >= self.rows.len() {
            return None;
        }
        if self.rows[row].label == label {
            Some(row)
        } else {
            None
        }
    }

    /// The place of the block's first word when the graph was made.
    pub fn label(&self, b: BlockId) -> Place
        requires { IsTrue (is_live_block self.now b) }
        ensures { label_of self.now b ≡ Some result }
    {
        self.rows[b.number()].label
    }

    /// Whether an opening pair of the program begins at the block.
    pub fn opening(&self, b: BlockId) -> bool
        requires { IsTrue (is_live_block self.now b) }
        ensures { opening_of self.now b ≡ Some result }
    {
        self.rows[b.number()].opening
    }

    /// How the block ends.
    pub fn last(&self, b: BlockId) -> Last
        requires { IsTrue (is_live_block self.now b) }
        ensures { last_of self.now b ≡ Some result }
    {
        self.rows[b.number()].last
    }

    /// The first kept block, in order of object and offset. None comes exactly where no block is kept.
    pub fn first_block(&self) -> Option<BlockId>
        ensures first { result ≡ first_block_id self.now.blocks }
        ensures live { IfSome result (λ b. IsTrue (is_live_block self.now b)) }
    {
        self.kept.ids_differ();
        numbered(&self.kept, self.kept.first(self.order))
    }

    /// The kept block behind another. None comes exactly behind the last one.
    pub fn next_block(&self, b: BlockId) -> Option<BlockId>
        requires { IsTrue (is_live_block self.now b) }
        ensures next { result ≡ block_id_after b self.now.blocks }
        ensures live { IfSome result (λ next. IsTrue (is_live_block self.now next)) }
    {
        self.kept.ids_differ();
        let kept = self.rows[b.number()].kept.unwrap();
        numbered(&self.kept, self.kept.next(kept))
    }

    /// The first op of a block. None comes exactly where it has none.
    pub fn first_op(&self, b: BlockId) -> Option<OpId>
        requires { IsTrue (is_live_block self.now b) }
        ensures first { result ≡ first_op_of self.now b }
        ensures live { IfSome result (λ o. IsTrue (is_live_op self.now o)) }
    {
        OpId::found(self.ops.first(b.list()))
    }

    /// The op behind another in its block. None comes exactly behind the last one.
    pub fn next_op(&self, o: OpId) -> Option<OpId>
        requires { IsTrue (is_live_op self.now o) }
        ensures next { result ≡ next_op_of self.now o }
        ensures live { IfSome result (λ next. IsTrue (is_live_op self.now next)) }
    {
        self.ops.ids_differ();
        OpId::found(self.ops.next(o.id()))
    }

    /// An op.
    pub fn op(&self, o: OpId) -> Op
        requires { IsTrue (is_live_op self.now o) }
        ensures { op_of self.now o ≡ Some result }
    {
        self.ops.ids_differ();
        *self.ops.get(o.id())
    }

    /// Gives an op another kind, and marks its block as touched. It takes no memory.
    pub fn replace(&mut self, o: OpId, kind: OpKind)
        requires { IsTrue (is_live_op self.old o) }
        ensures { self.new ≡ replaced self.old o kind }
    {
        self.ops.ids_differ();
        let list = self.ops.list_of(o.id());
        let op = self.ops.get_mut(o.id());
        op.kind = kind;
        touch_row(&mut self.rows, list);
    }

    /// Takes an op out, and marks its block as touched. It takes no memory.
    pub fn delete(&mut self, o: OpId)
        requires { IsTrue (is_live_op self.old o) }
        ensures { self.new ≡ deleted self.old o }
    {
        self.ops.ids_differ();
        let list = self.ops.list_of(o.id());
        self.ops.unlink(o.id());
        touch_row(&mut self.rows, list);
    }

    /// Gives a block another end, and marks it as touched. It takes no memory.
    pub fn set_last(&mut self, b: BlockId, last: Last)
        requires { IsTrue (is_live_block self.old b) }
        ensures { self.new ≡ last_set self.old b last }
    {
        end_row(&mut self.rows, b.list(), last);
    }

    /// Drops a block with its ops, and marks its label as touched. It takes no memory.
    pub fn drop_block(&mut self, b: BlockId)
        requires { IsTrue (is_live_block self.old b) }
        ensures { self.new ≡ dropped self.old b }
    {
        self.kept.ids_differ();
        let kept = drop_row(&mut self.rows, b.list());
        let _ = self.kept.unlink(kept);
    }

    /// The first label of a touched block, dropped ones among them, behind a place, or the first of all for None. None
    /// comes exactly where there is no such label. It takes no memory.
    pub fn next_touched(&self, after: Option<Place>) -> Option<Place>
        ensures { result ≡ next_touched_of self.now.touched after }
    {
        let rows = self.rows.as_slice();
        match after {
            Some(p) => first_touched(&rows[count_up_to(rows, p)..]),
            None => first_touched(rows),
        }
    }

    /// Takes all marks away. It takes no memory.
    pub fn clear_touched(&mut self)
        ensures { self.new ≡ cleared self.old }
    {
        clear_rows(self.rows.as_mut_slice());
    }

    /// A law: labels stand in order, blocks and marks among them, and each id names one block or op.
    pub fn is_graph(&self)
        ensures { IsGraph self.now }
    {
        let _ = &self.rows;
    }

    /// A law: the id of each kept block is the number of its label.
    pub fn is_numbered(&self)
        ensures { AreNumbered self.now }
    {
        let _ = &self.rows;
    }
}
