// The regions of a program by number, found in logarithmic time.
ghost use Rattle.std.specs.Prelude.{◌≡◌, None, Some, IfOk, if◌then◌else◌};
ghost use Rattle.om_value.specs.declared.value.Region.{Region as AnyRegion};
ghost use Rattle.om_value.specs.Same.{region_eq};
ghost use Rattle.om_encode.specs.DataBytes.{number_in, HasNumbers};

use om_io::NoMemory;
use om_prog::RegionInit;
use om_value::Region;
use std::alloc::Global;
use std::collections::BTreeMap;

/// The numbers of regions.
#[derive(Drop)]
pub(crate) struct RegionNumbers {
    numbers: BTreeMap<Region, usize>,
}

impl RegionNumbers {
    // No region.
    fn new(alloc: Global) -> RegionNumbers
        ensures { (r : AnyRegion) → number_in result r ≡ None }
    {
        RegionNumbers {
            numbers: BTreeMap::new(alloc),
        }
    }

    // Notes the number of a region, in place of one that it had.
    fn add(&mut self, r: Region, number: usize) -> Result<(), NoMemory>
        ensures { IfOk result (λ u. (q : AnyRegion) → number_in self.new q ≡ (if region_eq r q then Some number else number_in self.old q)) }
    {
        self.numbers.insert(r, number)?;
        Ok(())
    }

    /// The numbers of these regions.
    pub(crate) fn of(alloc: Global, regions: &[RegionInit]) -> Result<RegionNumbers, NoMemory>
        ensures { IfOk result (λ n. HasNumbers regions.now n) }
    {
        let mut numbers = RegionNumbers::new(alloc);
        for k in (0..regions.len()).rev() {
            numbers.add(regions[k].region, k)?;
        }
        Ok(numbers)
    }

    /// The number of a region, if it has one.
    pub(crate) fn number(&self, r: Region) -> Option<usize>
        ensures { result ≡ number_in self.now r }
    {
        self.numbers.get(&r).copied()
    }
}
