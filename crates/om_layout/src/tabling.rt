// The slots of all tables.
ghost use Rattle.std.specs.Prelude.{◌≡◌, ◌<◌, [], IfOk, All, fold, length, replicate};
ghost use Rattle.om_layout.specs.Order.{table_count as table_count_of};
ghost use Rattle.om_layout.specs.Placing.{AreOfObjects, noted, load_noted};

use crate::slot_set::Slots;
use crate::words::Load;
use om_io::NoMemory;
use om_value::Target;
use std::alloc::Global;

// One more than the greatest table number.
pub(crate) fn table_count(object_tables: &[u32]) -> usize
    ensures { result ≡ table_count_of object_tables.now }
{
    let mut count = 0;
    for table in object_tables {
        count = (*table as usize + 1).max(count);
    }
    count
}

// So many tables without slots.
fn empty_tables(alloc: Global, count: usize) -> Result<Vec<Slots>, NoMemory>
    ensures { IfOk result (λ v. v.items ≡ replicate count []) }
{
    let mut tables = Vec::new(alloc);
    for _table in 0..count {
        tables.push(Slots::new(alloc))?;
    }
    Ok(tables)
}

// Notes a target of a table.
fn note(tables: &mut Vec<Slots>, table: u32, target: Target) -> Result<(), NoMemory>
    requires { table < length tables.old.items }
    ensures { IfOk result (λ u. tables.new.items ≡ noted tables.old.items table target) }
{
    tables[table as usize].add(target)
}

// The slots of each table, in order of first use.
pub(crate) fn slots_of(
    alloc: Global,
    object_tables: &[u32],
    loads: &[Load],
) -> Result<Vec<Slots>, NoMemory>
    requires { AreOfObjects object_tables.now loads.now }
    ensures { IfOk result (λ v. v.items ≡ fold (load_noted object_tables.now) (replicate (table_count_of object_tables.now) []) loads.now) }
{
    let mut tables = empty_tables(alloc, table_count(object_tables))?;
    for load in loads {
        note(&mut tables, object_tables[load.obj as usize], load.target)?;
    }
    Ok(tables)
}
