// The regions of a layout.
ghost use Rattle.std.specs.Prelude.{◌≡◌, [], ◌∷◌, ◌++◌, None, IfOk, find, option_copied};
ghost use Rattle.om_layout.specs.Layout.{is_region};

use crate::table::Placed;
use om_io::NoMemory;
use om_value::Region;
use std::alloc::Global;
use std::collections::BTreeMap;
use std::marker::Model;

// Regions in order, each found in logarithmic time.
#[derive(Drop)]
pub(crate) struct Regions {
    placed: Vec<Placed>,
    by_region: BTreeMap<Region, Placed>,
}

impl Model for Regions {
    ghost use Rattle.std.specs.Prelude.{List};
    ghost use Rattle.om_layout.specs.Layout.{RegionAt};

    ghost Value = { List RegionAt };

    ghost use Rattle.om_layout.specs.Found.{HasRegions};

    ghost view = { λ r. r.placed.items };

    ghost invariant = { λ r. HasRegions r.placed.items r.by_region };
}

impl Regions {
    // None.
    pub(crate) fn new(alloc: Global) -> Regions
        ensures { result ≡ [] }
    {
        Regions {
            placed: Vec::new(alloc),
            by_region: BTreeMap::new(alloc),
        }
    }

    // Puts a region that is not there behind the others.
    pub(crate) fn add(&mut self, placed: Placed) -> Result<(), NoMemory>
        requires { find (is_region placed.region) self.old ≡ None }
        ensures { IfOk result (λ u. self.new ≡ self.old ++ placed ∷ []) }
    {
        self.placed.reserve(1)?;
        self.by_region.insert(placed.region(), placed)?;
        self.placed.push_reserved(placed);
        Ok(())
    }

    // A region, where it is there.
    pub(crate) fn get(&self, r: Region) -> Option<Placed>
        ensures { result ≡ find (is_region r) self.now }
    {
        self.by_region.get(&r).copied()
    }

    // All of them, in order.
    pub(crate) fn placed(&self) -> &[Placed]
        ensures { result.now ≡ self.now }
    {
        self.placed.as_slice()
    }
}
