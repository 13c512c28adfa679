// Tables and regions, one behind the other.
ghost use Rattle.std.specs.Prelude.{◌≡◌, ◌+◌, ◌*◌, ◌^◌, ◌<◌, ◌≤◌, All, IfOk, length, sum_by};
ghost use Rattle.om_layout.specs.Layout.{data_base};
ghost use Rattle.om_layout.specs.Order.{round_16 as round_of};
ghost use Rattle.om_layout.specs.Placing.{StandOnce, tables_from, tables_stop, regions_from};

use crate::layout::DATA_BASE;
use crate::regions::Regions;
use crate::slot_set::Slots;
use crate::sorting::Extent;
use crate::table::{Placed, Table};
use om_io::NoMemory;
use std::alloc::Global;

// The next multiple of 16.
fn round_16(n: u64) -> u64
    requires { n + 15 < 2 ^ 64 }
    ensures { result ≡ round_of n }
{
    (n + 15) / 16 * 16
}

// The tables with these slots, from where the data begins on, and where they end.
pub(crate) fn placed_tables(alloc: Global, slots: Vec<Slots>) -> Result<(Vec<Table>, u64), NoMemory>
    requires tables { length slots.items ≤ 256 }
    requires few { All (λ s. length s ≤ 8192) slots.items }
    ensures tables { IfOk result (λ r. r.0.items ≡ tables_from data_base slots.items) }
    ensures end { IfOk result (λ r. r.1 ≡ tables_stop data_base slots.items) }
{
    let mut tables = Vec::new(alloc);
    let mut at = DATA_BASE;
    for s in slots {
        let start = round_16(at);
        at = start + 8 * s.targets().len() as u64;
        tables.push(Table::new(start, s))?;
    }
    Ok((tables, at))
}

// The regions of these sizes, from an address on.
pub(crate) fn placed_regions(
    alloc: Global,
    start: u64,
    extents: &[Extent],
) -> Result<Regions, NoMemory>
    requires once { StandOnce extents.now }
    requires room { start + 15 * length extents.now + sum_by (λ e. e.size) extents.now < 2 ^ 48 }
    ensures { IfOk result (λ r. r ≡ regions_from start extents.now) }
{
    let mut regions = Regions::new(alloc);
    let mut at = start;
    for e in extents {
        let address = round_16(at);
        regions.add(Placed::new(e.region, address, e.size))?;
        at = address + e.size;
    }
    Ok(regions)
}
