// The lines of source words.
ghost use Rattle.std.specs.Prelude.{◌≡◌, ◌≤◌, ◌+◌, length};
ghost use Rattle.om_fields.specs.Bytes.{Grows};
ghost use Rattle.om_listing.specs.Listing.{line_start, gone_line, changed_line, word_lines, IsPlaced, count_text, totals_line};

use crate::page::{LINE, Page, SIZE};
use om_image::MapWord;

impl Page {
    #[tactic(auto, unfolding(crate::specs::Listing::line_start))]
    fn push_start(&mut self, object: u32, offset: u64, old: u32)
        requires room { length self.old + 59 ≤ SIZE }
        ensures grows { Grows self.old self.new (line_start object offset old) }
        ensures length { length self.new ≤ length self.old + 59 }
    {
        self.push_number(u64::from(object));
        self.push(b" ");
        self.push_word(offset);
        self.push(b" ");
        self.push_word(u64::from(old));
        self.push(b" ");
    }

    #[tactic(auto, unfolding(crate::specs::Listing::gone_line))]
    fn push_gone(&mut self, object: u32, offset: u64, old: u32)
        requires room { length self.old + LINE ≤ SIZE }
        ensures grows { Grows self.old self.new (gone_line object offset old) }
    {
        self.push_start(object, offset, old);
        self.push(b"gone ");
        self.push_text(old);
        self.push(b"\n");
    }

    #[tactic(auto, unfolding(crate::specs::Listing::changed_line))]
    fn push_changed(&mut self, object: u32, offset: u64, old: u32, new: u32)
        requires room { length self.old + LINE ≤ SIZE }
        ensures grows { Grows self.old self.new (changed_line object offset old new) }
    {
        self.push_start(object, offset, old);
        self.push_word(u64::from(new));
        self.push(b" ");
        self.push_text(new);
        self.push(b"\n");
    }

    /// Appends the line of a source word at a byte offset of an object, if it has one.
    #[tactic(auto, using(crate::proofs::Placing::kept_place))]
    pub(crate) fn push_lines(&mut self, text: &[u32], object: u32, offset: u64, w: &MapWord)
        requires room { length self.old + LINE ≤ SIZE }
        requires placed { IsPlaced (length text.now) w.now }
        ensures grows { Grows self.old self.new (word_lines text.now object offset w.now) }
    {
        if !w.kept {
            self.push_gone(object, offset, w.old);
            return;
        }
        let new = text[w.position as usize];
        if new != w.old {
            self.push_changed(object, offset, w.old, new);
        }
    }

    #[tactic(auto, unfolding(crate::specs::Listing::count_text))]
    fn push_count(&mut self, name: &[u8], n: u64)
        requires room { length self.old + 48 ≤ SIZE }
        requires short { length name.now ≤ 8 }
        ensures grows { Grows self.old self.new (count_text name.now n) }
        ensures length { length self.new ≤ length self.old + 48 }
    {
        self.push(name);
        self.push_number(n);
    }

    /// Appends the line of totals.
    #[tactic(auto, unfolding(crate::specs::Listing::totals_line))]
    pub(crate) fn push_totals(&mut self, words: u64, kept: u64, slots: u64, tables: u64)
        requires room { length self.old + LINE ≤ SIZE }
        ensures grows { Grows self.old self.new (totals_line words kept slots tables) }
    {
        self.push_count(b"words ", words);
        self.push_count(b" kept ", kept);
        self.push_count(b" slots ", slots);
        self.push_count(b" tables ", tables);
        self.push(b"\n");
    }
}
