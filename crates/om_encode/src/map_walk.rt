// The words of a map, of which none is marked as kept yet.
ghost use Rattle.std.specs.Prelude.{◌≡◌, ◌++◌, IfOk};
ghost use Rattle.om_prog.specs.View.{text_of};
ghost use Rattle.om_prog.specs.Valid.{IsProgram};
ghost use Rattle.om_encode.specs.Encoded.{told_word, told_words, told_texts};

use om_image::MapWord;
use om_io::NoMemory;
use om_layout::Layout;
use om_prog::{Item, Program};
use om_value::Place;
use std::alloc::Global;

// What the map says of a word that is not kept.
fn word_at(layout: &Layout, at: Place, item: Item) -> MapWord
    ensures { result ≡ told_word layout.now at item }
{
    MapWord {
        old: item.word,
        position: layout.position(at),
        kept: false,
    }
}

// Puts the words of an object behind others.
fn add_text(
    program: &Program,
    layout: &Layout,
    obj: u32,
    words: &mut Vec<MapWord>,
) -> Result<(), NoMemory>
    requires { IsProgram program.now }
    ensures { IfOk result (λ u. words.new.items ≡ words.old.items ++ told_words layout.now obj 0 (text_of program.now obj)) }
{
    for word in 0..program.words(obj) {
        let at = Place { obj, off: 4 * word };
        if let Some(item) = program.item(at) {
            words.push(word_at(layout, at, item))?;
        }
    }
    Ok(())
}

/// The words of a map, in order of object and offset.
pub(crate) fn map_words_of(
    alloc: Global,
    program: &Program,
    layout: &Layout,
) -> Result<Vec<MapWord>, NoMemory>
    ensures { IfOk result (λ words. words.items ≡ told_texts layout.now 0 program.now.texts) }
{
    let mut words = Vec::new(alloc);
    for obj in 0..program.objects() {
        add_text(program, layout, obj, &mut words)?;
    }
    Ok(words)
}
