// Regions with their sizes, and the targets of a text, found in logarithmic time.
ghost use Rattle.std.specs.Prelude.{◌≡◌, None, Some, false, not, is_some, ◌||◌, IfOk, if◌then◌else◌};
ghost use Rattle.om_value.specs.declared.value.Region.{Region as AnyRegion};
ghost use Rattle.om_value.specs.declared.value.Target.{Target as AnyTarget};
ghost use Rattle.om_value.specs.Same.{region_eq, target_eq};

use om_io::NoMemory;
use om_value::{Region, Target};
use std::alloc::Global;
use std::collections::{BTreeMap, BTreeSet};

/// The sizes of regions, each by its region.
#[derive(Drop)]
pub(crate) struct RegionSizes {
    sizes: BTreeMap<Region, u64>,
}

impl RegionSizes {
    ghost use Rattle.om_prog.specs.Keys.{size_in};

    /// No region.
    pub(crate) fn new(alloc: Global) -> RegionSizes
        ensures { (r : AnyRegion) → size_in result r ≡ None }
    {
        RegionSizes {
            sizes: BTreeMap::new(alloc),
        }
    }

    /// Notes the size of a region. Whether it had one before.
    pub(crate) fn add(&mut self, r: Region, size: u64) -> Result<bool, NoMemory>
        ensures had { IfOk result (λ had. had ≡ is_some (size_in self.old r)) }
        ensures now { IfOk result (λ had. (q : AnyRegion) → size_in self.new q ≡ (if region_eq r q then Some size else size_in self.old q)) }
    {
        let before = self.sizes.insert(r, size)?;
        Ok(before.is_some())
    }

    /// The size of a region, if it was noted.
    pub(crate) fn size(&self, r: Region) -> Option<u64>
        ensures { result ≡ size_in self.now r }
    {
        self.sizes.get(&r).copied()
    }
}

/// Targets that were noted.
#[derive(Drop)]
pub(crate) struct Slots {
    seen: BTreeSet<Target>,
}

impl Slots {
    ghost use Rattle.om_prog.specs.Keys.{is_slot};

    /// No target.
    pub(crate) fn new(alloc: Global) -> Slots
        ensures { (t : AnyTarget) → is_slot result t ≡ false }
    {
        Slots {
            seen: BTreeSet::new(alloc),
        }
    }

    /// Notes a target. Whether it is new.
    pub(crate) fn add(&mut self, t: Target) -> Result<bool, NoMemory>
        ensures added { IfOk result (λ added. added ≡ not (is_slot self.old t)) }
        ensures now { IfOk result (λ added. (q : AnyTarget) → is_slot self.new q ≡ (target_eq t q || is_slot self.old q)) }
    {
        let added = self.seen.insert(t)?;
        Ok(added)
    }
}
