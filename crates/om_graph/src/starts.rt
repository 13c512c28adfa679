//! The number of words before each object.
ghost use Rattle.std.specs.Prelude.{◌≡◌, ◌<◌, ◌^◌, length, IfOk};
ghost use Rattle.om_graph.specs.View.{numbers_from};
ghost use Rattle.om_graph.specs.Laid.{AreStarts};

use om_io::NoMemory;
use std::alloc::Global;

// The number of words before each object, and its own number as its table.
pub(crate) fn starts_and_tables(
    alloc: Global,
    texts: &[u32],
) -> Result<(Vec<u64>, Vec<u32>), NoMemory>
    requires { length texts.now < 2 ^ 32 }
    ensures starts { IfOk result (λ r. AreStarts texts.now r.0.items) }
    ensures tables { IfOk result (λ r. r.1.items ≡ numbers_from 0 (length texts.now)) }
{
    let mut starts = Vec::new(alloc);
    let mut tables = Vec::new(alloc);
    let mut start = 0;
    let mut table = 0;
    for words in texts {
        starts.push(start)?;
        tables.push(table)?;
        start += *words as u64;
        table += 1;
    }
    Ok((starts, tables))
}
