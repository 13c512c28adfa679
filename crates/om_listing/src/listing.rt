// The listing.
ghost use Rattle.std.specs.Prelude.{◌≡◌, ◌≤◌, ◌<◌, ◌+◌, ◌^◌, ℕ, List, Some, [], length, OnOk, All, count_by};
ghost use Rattle.om_io.specs.Causes.{HasCause};
ghost use Rattle.om_io.specs.Outside.{Appends};
ghost use Rattle.om_image.specs.Valid.{IsValidImage};
ghost use Rattle.om_image.specs.Written.{slot_count as count_of_slots, map_size};
ghost use Rattle.om_fields.specs.Bytes.{Grows};
ghost use Rattle.om_listing.specs.Sending.{Sends};
ghost use Rattle.om_listing.specs.Listing.{word_lines, lines_from, object_lines, IsPlaced, word_count, totals, listing};

use crate::page::{LINE, Page, SIZE};
use crate::sending::{send, send_full};
use om_image::{Image, Map, MapObj, MapTable, MapWord};
use om_io::{Failed, Sink};

// The line of a source word, if it has one.
fn put_lines<S: Sink>(
    out: &mut S,
    page: &mut Page,
    text: &[u32],
    object: u32,
    offset: u64,
    w: &MapWord,
) -> Result<(), Failed>
    requires { IsPlaced (length text.now) w.now }
    ensures { Sends (word_lines text.now object offset w.now) (S.written out.old) (S.faults out.old) page.old
        (S.written out.new) (S.faults out.new) page.new result }
{
    send_full(out, page)?;
    page.push_lines(text, object, offset, w);
    Ok(())
}

// The lines of an object's words.
fn put_words<S: Sink>(
    out: &mut S,
    page: &mut Page,
    text: &[u32],
    object: u32,
    words: &[MapWord],
) -> Result<(), Failed>
    requires placed { All (IsPlaced (length text.now)) words.now }
    requires few { length words.now < 2 ^ 32 }
    ensures { Sends (lines_from text.now object 0 words.now) (S.written out.old) (S.faults out.old) page.old
        (S.written out.new) (S.faults out.new) page.new result }
{
    for (k, w) in words.iter().enumerate() {
        put_lines(out, page, text, object, 4 * k as u64, w)?;
    }
    Ok(())
}

// The lines of the words of all objects.
fn put_objects<S: Sink>(
    out: &mut S,
    page: &mut Page,
    text: &[u32],
    objects: &[MapObj],
    words: &[MapWord],
) -> Result<(), Failed>
    requires placed { All (IsPlaced (length text.now)) words.now }
    requires few_objects { length objects.now < 2 ^ 32 }
    requires few_words { length words.now < 2 ^ 32 }
    requires total { word_count objects.now ≡ length words.now }
    ensures { Sends (object_lines text.now 0 objects.now words.now) (S.written out.old) (S.faults out.old) page.old
        (S.written out.new) (S.faults out.new) page.new result }
{
    let mut at = 0;
    for (number, object) in objects.iter().enumerate() {
        let count = object.words as usize;
        put_words(out, page, text, number as u32, &words[at..][..count])?;
        at += count;
    }
    Ok(())
}

// How many words are kept.
fn kept_count(words: &[MapWord]) -> usize
    ensures { result ≡ count_by (λ w. w.kept) words.now }
{
    words.iter().filter(|w| w.kept).count()
}

// How many slots the tables have in all.
fn slot_count(tables: &[MapTable]) -> u64
    requires { count_of_slots tables.now < 2 ^ 60 }
    ensures { result ≡ count_of_slots tables.now }
{
    let mut count = 0;
    for t in tables {
        count += t.slots.as_slice().len() as u64;
    }
    count
}

// Appends the totals of a map.
fn push_map_totals(page: &mut Page, m: &Map)
    requires room { length page.old + LINE ≤ SIZE }
    requires fits { map_size m.now < 2 ^ 63 }
    ensures { Grows page.old page.new (totals m.now) }
{
    let words = m.words.as_slice();
    let tables = m.tables.as_slice();
    page.push_totals(
        words.len() as u64,
        kept_count(words) as u64,
        slot_count(tables),
        tables.len() as u64,
    );
}

// The totals, and all that waits.
fn put_totals<S: Sink>(out: &mut S, page: &mut Page, m: &Map) -> Result<(), Failed>
    requires { map_size m.now < 2 ^ 63 }
    ensures sends { Sends (totals m.now) (S.written out.old) (S.faults out.old) page.old (S.written out.new) (S.faults out.new) page.new result }
    ensures empty { OnOk result (page.new ≡ []) }
{
    send_full(out, page)?;
    push_map_totals(page, m);
    send(out, page)?;
    Ok(())
}

/// Puts the listing of a valid image.
///
/// A line for each source word that is gone, or for which the image has another word at its position, in order of
/// object and offset: the object's number in decimal, the byte offset in its text and the old word in 8 hexadecimal
/// digits each, and then the new word in 8 with its text, or `gone` with the old word's text. The last line says how
/// many source words, kept words, slots of all tables, and tables there are. A word that is no instruction has the text
/// `?`. Of an offset the lowest 8 digits are shown, which are all where an object has fewer than 2^30 words.
///
/// `Failed` comes only where the sink's count of faults rose, and then a front of the listing was written. It takes no
/// memory.
pub fn list<S: Sink>(i: &Image, out: &mut S) -> Result<(), Failed>
    requires { IsValidImage i.now }
    ensures appends { (old : List ℕ) → S.written out.old ≡ Some old → Appends old (S.written out.new) (listing i.now) result }
    ensures cause { HasCause (S.faults out.old) (S.faults out.new) result }
{
    let mut page = Page::new();
    let m = &i.map;
    put_objects(
        out,
        &mut page,
        i.text.as_slice(),
        m.objects.as_slice(),
        m.words.as_slice(),
    )?;
    put_totals(out, &mut page, m)?;
    Ok(())
}
