// The regions of a program in the order in which a layout places them.
ghost use Rattle.std.specs.Prelude.{◌≡◌, ◌<◌, ◌^◌, All, IfOk, IsPermutation, IsSorted, map};
ghost use Rattle.om_prog.specs.Valid.{AreOnce};
ghost use Rattle.om_layout.specs.Order.{extent_of, InOrder};
ghost use Rattle.om_layout.specs.Placing.{Fits, StandOnce, extent_pair, unplaced};

use om_io::NoMemory;
use om_prog::RegionInit;
use om_value::Region;
use std::alloc::Global;

// A region with its size in bytes. The derived order is by size, then by region: sections before commons.
#[derive(Clone, Copy, PartialEq, Eq, PartialOrd, Ord)]
pub(crate) struct Extent {
    pub(crate) size: u64,
    pub(crate) region: Region,
}

// A number of 32 bits.
fn fits_32(_n: u32)
    ensures { _n < 2 ^ 32 }
{}

// A number of 8 bits.
fn fits_8(_n: u8)
    ensures { _n < 2 ^ 8 }
{}

// The numbers of a region fit it, as its type says. It does nothing.
fn region_fits(r: Region)
    ensures { Fits r }
{
    match r {
        Region::Sec { obj, number } => {
            fits_32(obj);
            fits_8(number);
        }
        Region::Common { sym } => fits_32(sym),
        _ => {}
    }
}

// The numbers of these regions fit them. It does nothing.
fn extents_fit(extents: &[Extent])
    ensures { All (λ e. Fits e.region) extents.now }
{
    for e in extents {
        region_fits(e.region);
    }
}

// The regions with their sizes.
fn extents_of(alloc: Global, regions: &[RegionInit]) -> Result<Vec<Extent>, NoMemory>
    ensures { IfOk result (λ v. map extent_pair v.items ≡ map extent_of regions.now) }
{
    let mut extents = Vec::new(alloc);
    for r in regions {
        extents.push(Extent {
            size: r.size,
            region: r.region,
        })?;
    }
    Ok(extents)
}

// The regions with their sizes, in order.
pub(crate) fn sorted_extents(alloc: Global, regions: &[RegionInit]) -> Result<Vec<Extent>, NoMemory>
    requires { AreOnce regions.now }
    ensures same { IfOk result (λ v. IsPermutation (map extent_pair v.items) (map extent_of regions.now)) }
    ensures once { IfOk result (λ v. StandOnce v.items) }
    ensures order { IfOk result (λ v. InOrder (map unplaced v.items)) }
{
    let mut extents = extents_of(alloc, regions)?;
    extents.sort()?;
    extents_fit(extents.as_slice());
    Ok(extents)
}
