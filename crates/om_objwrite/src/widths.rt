// That the numbers of parts fit their fields, as the types of a program's values say.
ghost use Rattle.std.specs.Prelude.{◌<◌, ◌^◌, All};
ghost use Rattle.om_objwrite.specs.RoundTrip.{HasRelocWidths, HasSectionWidths, HasSymbolWidths, HasWidths};

use om_object::{Parts, Section};
use om_reloc::Reloc;
use om_symtab::ExtSym;

// A number of 64 bits.
fn fits_64(_n: u64)
    ensures { _n < 2 ^ 64 }
{}

// A number of 32 bits.
fn fits_32(_n: u32)
    ensures { _n < 2 ^ 32 }
{}

fn reloc_fits(r: &Reloc)
    ensures { HasRelocWidths r.now }
{
    fits_64(r.place);
    fits_32(r.index);
}

fn relocs_fit(relocs: &[Reloc])
    ensures { All HasRelocWidths relocs.now }
{
    for r in relocs {
        reloc_fits(r);
    }
}

fn section_fits(s: &Section)
    ensures { HasSectionWidths s.now }
{
    fits_64(s.addr);
    fits_64(s.size);
    relocs_fit(s.relocs.as_slice());
}

fn sections_fit(sections: &[Section])
    ensures { All HasSectionWidths sections.now }
{
    for s in sections {
        section_fits(s);
    }
}

fn symbol_fits(y: &ExtSym)
    ensures { HasSymbolWidths y.now }
{
    fits_64(y.value);
}

fn symbols_fit(symbols: &[ExtSym])
    ensures { All HasSymbolWidths symbols.now }
{
    for y in symbols {
        symbol_fits(y);
    }
}

// The numbers of parts fit the fields that they are written to. It does nothing: no number of a program is wider.
pub fn parts_fit(p: &Parts)
    ensures { HasWidths p.now }
{
    fits_64(p.gp);
    sections_fit(p.sections.as_slice());
    symbols_fit(p.symbols.as_slice());
}
