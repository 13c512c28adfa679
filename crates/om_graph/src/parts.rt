//! What a graph keeps of its blocks.
ghost use Rattle.std.specs.Prelude.{◌≡◌, ◌<◌, ◌≤◌, ℕ, length, find, map, Some, IsSome, IfSome, option_and_then, true, false, slice_set};
ghost use Rattle.om_graph.specs.Laid.{row_at, labels_of, touched_of, touched_row, ended_row, dropped_row, cleared_row};
ghost use Rattle.om_arena.specs.Lists.{IsLive, value_of};
ghost use Rattle.om_graph.specs.View.{place_lt, InPlaceOrder};

use crate::ids::BlockId;
use crate::op::Last;
use om_arena::{Arena, Id, ListId};
use om_io::NoMemory;
use om_value::Place;
use std::alloc::Global;

// A block that was added. Its number is that of its list of ops.
#[derive(Clone, Copy)]
pub(crate) struct Row {
    pub(crate) label: Place,
    pub(crate) opening: bool,
    pub(crate) touched: bool,
    pub(crate) last: Last,
    // Where it stands among the kept blocks, while it is kept.
    pub(crate) kept: Option<Id<ListId>>,
}

// Whether a place stands before another, by object and then by offset.
pub(crate) fn is_before(p: Place, q: Place) -> bool
    ensures { result ≡ place_lt p q }
{
    if p.obj == q.obj {
        p.off < q.off
    } else {
        p.obj < q.obj
    }
}

// How many of the rows, which stand in order, have labels before the place.
pub(crate) fn count_before(rows: &[Row], p: Place) -> usize
    requires { InPlaceOrder (labels_of rows.now) }
    ensures bound { result ≤ length rows.now }
    ensures below { (i : ℕ) → i < result → place_lt (row_at rows.now i).label p ≡ true }
    ensures above { (i : ℕ) → result ≤ i → i < length rows.now → place_lt (row_at rows.now i).label p ≡ false }
{
    rows.partition_point(|r| is_before(r.label, p))
}

// The same. The row at `near` is looked at first.
pub(crate) fn place_before(rows: &[Row], near: usize, p: Place) -> usize
    requires { InPlaceOrder (labels_of rows.now) }
    ensures bound { result ≤ length rows.now }
    ensures below { (i : ℕ) → i < result → place_lt (row_at rows.now i).label p ≡ true }
    ensures above { (i : ℕ) → result ≤ i → i < length rows.now → place_lt (row_at rows.now i).label p ≡ false }
{
    if near < rows.len() {
        if rows[near].label == p {
            return near;
        }
    }
    count_before(rows, p)
}

// A number for each word of texts.
pub(crate) fn first_near(alloc: Global, texts: &[u32]) -> Result<Vec<u32>, NoMemory> {
    let mut words: u64 = 0;
    for count in texts {
        words = words.saturating_add(*count as u64);
    }
    let near = vec![in alloc; 0; words as usize]?;
    Ok(near)
}

// Puts a row's number at a place, if there is such a place.
pub(crate) fn note_near(near: &mut Vec<u32>, at: usize, row: usize) {
    if at < near.len() {
        if row < 4_000_000_000 {
            near[at] = row as u32;
        }
    }
}

// How many of the rows have labels that are not behind the place.
pub(crate) fn count_up_to(rows: &[Row], p: Place) -> usize
    requires { InPlaceOrder (labels_of rows.now) }
    ensures bound { result ≤ length rows.now }
    ensures below { (i : ℕ) → i < result → place_lt p (row_at rows.now i).label ≡ false }
    ensures above { (i : ℕ) → result ≤ i → i < length rows.now → place_lt p (row_at rows.now i).label ≡ true }
{
    rows.partition_point(|r| !is_before(p, r.label))
}

// The label of the first touched row.
pub(crate) fn first_touched(rows: &[Row]) -> Option<Place>
    ensures { result ≡ find (λ q. true) (touched_of rows.now) }
{
    for row in rows {
        if row.touched {
            return Some(row.label);
        }
    }
    None
}

// Marks a block as touched.
pub(crate) fn touch_row(rows: &mut Vec<Row>, list: ListId)
    requires { list < length rows.old.items }
    ensures { rows.new.items ≡ slice_set rows.old.items list (touched_row (row_at rows.old.items list)) }
{
    rows[list.number()].touched = true;
}

// Gives a block another end, and marks it as touched.
pub(crate) fn end_row(rows: &mut Vec<Row>, list: ListId, last: Last)
    requires { list < length rows.old.items }
    ensures { rows.new.items ≡ slice_set rows.old.items list (ended_row last (row_at rows.old.items list)) }
{
    let row = &mut rows[list.number()];
    row.last = last;
    row.touched = true;
}

// Marks a kept block as touched and dropped, and says where it stood among the kept ones.
pub(crate) fn drop_row(rows: &mut Vec<Row>, list: ListId) -> Id<ListId>
    requires list { list < length rows.old.items }
    requires kept { IsSome (row_at rows.old.items list).kept }
    ensures kept { (row_at rows.old.items list).kept ≡ Some result }
    ensures rows { rows.new.items ≡ slice_set rows.old.items list (dropped_row (row_at rows.old.items list)) }
{
    let row = &mut rows[list.number()];
    let kept = row.kept.unwrap();
    row.touched = true;
    row.kept = None;
    kept
}

// Leaves no row touched.
pub(crate) fn clear_rows(rows: &mut [Row])
    ensures { rows.new ≡ map cleared_row rows.old }
{
    for row in rows.iter_mut() {
        row.touched = false;
    }
}

// The block that stands under an id among the kept ones.
pub(crate) fn numbered(kept: &Arena<ListId>, id: Option<Id<ListId>>) -> Option<BlockId>
    requires { IfSome id (λ id. IsLive kept.now id) }
    ensures { result ≡ option_and_then (value_of kept.now) id }
{
    match id {
        Some(id) => Some(BlockId::new(*kept.get(id))),
        None => None,
    }
}
