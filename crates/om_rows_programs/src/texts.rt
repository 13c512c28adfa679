// Texts with names.
use om_rows::{Bad, word};
use std::alloc::Global;

#[derive(Drop)]
struct Named {
    name: String,
    text: String,
}

/// The texts that have names so far.
#[derive(Drop)]
pub struct Texts {
    alloc: Global,
    named: Vec<Named>,
}

impl Texts {
    /// None.
    pub fn new(alloc: Global) -> Texts {
        Texts {
            alloc,
            named: Vec::new(alloc),
        }
    }

    /// The text that was last given a name.
    fn text(&self, name: &str) -> Option<&str> {
        let mut found = None;
        for named in &self.named {
            if named.name.as_str() == name {
                found = Some(named.text.as_str());
            }
        }
        found
    }

    /// The words of a text with one blank between them, and for each word `$NAME` the text of that name. `Text` where
    /// there is no such name.
    pub fn filled(&self, text: &str) -> Result<String, Bad> {
        let mut filled = String::new(self.alloc);
        for said in text.split_ascii_whitespace() {
            if !filled.is_empty() {
                filled.push_str(" ")?;
            }
            match said.strip_prefix('$') {
                Some(name) => filled.push_str(self.text(name).ok_or(Bad::Text)?)?,
                None => filled.push_str(said)?,
            }
        }
        Ok(filled)
    }

    /// Gives a text a name, of `NAME TEXT`.
    pub fn add(&mut self, said: &str) -> Result<(), Bad> {
        let (name, text) = word(said);
        let name = String::from_str(self.alloc, name)?;
        let text = self.filled(text)?;
        self.named.push(Named { name, text })?;
        Ok(())
    }
}
