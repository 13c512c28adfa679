// That the numbers of images fit their fields, as the types of a program's values say.
ghost use Rattle.std.specs.Prelude.{◌<◌, ◌^◌, All};
ghost use Rattle.om_image.specs.RoundTrip.{HasRegionWidths, HasTargetWidths, HasObjWidths, HasTableWidths, HasExtentWidths, HasMapWidths, HasWidths};

use crate::image::Image;
use crate::map::{Map, MapObj, MapRegion, MapTable, MapWord, Region, Target};

// A number of 64 bits.
fn fits_64(_n: u64)
    ensures { _n < 2 ^ 64 }
{}

// A number of 32 bits.
fn fits_32(_n: u32)
    ensures { _n < 2 ^ 32 }
{}

// A number of 8 bits.
fn fits_8(_n: u8)
    ensures { _n < 2 ^ 8 }
{}

fn region_fits(region: Region)
    ensures { HasRegionWidths region }
{
    match region {
        Region::Sec { obj, number } => {
            fits_32(obj);
            fits_8(number);
        }
        Region::Common { sym } => fits_32(sym),
        Region::Stack => {}
    }
}

fn target_fits(target: Target)
    ensures { HasTargetWidths target }
{
    match target {
        Target::Num(n) => fits_64(n),
        Target::Ptr { region, off } => {
            region_fits(region);
            fits_64(off);
        }
        Target::Code(place) => {
            fits_32(place.obj);
            fits_32(place.off);
        }
    }
}

fn slots_fit(slots: &[Target])
    ensures { All HasTargetWidths slots.now }
{
    for target in slots {
        target_fits(*target);
    }
}

fn object_fits(o: &MapObj)
    ensures { HasObjWidths o.now }
{
    fits_32(o.words);
    fits_32(o.table);
}

fn objects_fit(objects: &[MapObj])
    ensures { All HasObjWidths objects.now }
{
    for o in objects {
        object_fits(o);
    }
}

fn table_fits(t: &MapTable)
    ensures { HasTableWidths t.now }
{
    fits_64(t.start);
    slots_fit(t.slots.as_slice());
}

fn tables_fit(tables: &[MapTable])
    ensures { All HasTableWidths tables.now }
{
    for t in tables {
        table_fits(t);
    }
}

fn extent_fits(r: &MapRegion)
    ensures { HasExtentWidths r.now }
{
    region_fits(r.region);
    fits_64(r.address);
    fits_64(r.size);
}

fn extents_fit(regions: &[MapRegion])
    ensures { All HasExtentWidths regions.now }
{
    for r in regions {
        extent_fits(r);
    }
}

fn sources_fit(words: &[MapWord])
    ensures { All (λ w. w.old < 2 ^ 32) words.now }
{
    for w in words {
        fits_32(w.old);
    }
}

fn text_fits(text: &[u32])
    ensures { All (λ w. w < 2 ^ 32) text.now }
{
    for w in text {
        fits_32(*w);
    }
}

fn map_fits(m: &Map)
    ensures { HasMapWidths m.now }
{
    objects_fit(m.objects.as_slice());
    tables_fit(m.tables.as_slice());
    extents_fit(m.regions.as_slice());
    sources_fit(m.words.as_slice());
}

/// The numbers of an image fit the fields that they are written to. It does nothing: no number of a program is wider.
pub fn image_fits(i: &Image)
    ensures { HasWidths i.now }
{
    fits_64(i.entry);
    fits_64(i.gp);
    text_fits(i.text.as_slice());
    fits_64(i.bss);
    map_fits(&i.map);
}
