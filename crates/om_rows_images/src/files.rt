// Files that rows give a name.
use crate::causes::Bad;
use om_rows::{file_of, word};
use std::alloc::Global;

/// The pieces of the files that have a name.
#[derive(Drop)]
pub struct Files {
    alloc: Global,
    named: Vec<(String, String)>,
}

impl Files {
    /// No file.
    pub fn new(alloc: Global) -> Files {
        Files {
            alloc,
            named: Vec::new(alloc),
        }
    }

    // The pieces of the file of this name; `-` is one of no bytes.
    fn pieces_of(&self, name: &str) -> Result<&str, Bad> {
        if name == "-" {
            return Ok("");
        }
        for (other, pieces) in &self.named {
            if other.as_str() == name {
                return Ok(pieces.as_str());
            }
        }
        Err(Bad::Text)
    }

    /// The file of `NAME AT:HEX ..`: what the name stands for, with these pieces over it.
    pub fn file(&self, text: &str) -> Result<Vec<u8>, Bad> {
        let (name, pieces) = word(text);
        let all = format!(in self.alloc; "{} {pieces}", self.pieces_of(name)?)?;
        Ok(file_of(self.alloc, all.as_str())?)
    }

    /// Gives `AT:HEX ..` a name, by `NAME AT:HEX ..`, and says how many bytes it has.
    pub fn add(&mut self, text: &str) -> Result<String, Bad> {
        let (name, pieces) = word(text);
        let name = String::from_str(self.alloc, name)?;
        let kept = String::from_str(self.alloc, pieces)?;
        self.named.push((name, kept))?;
        let file = file_of(self.alloc, pieces)?;
        Ok(format!(in self.alloc; "{}", file.len())?)
    }
}
