// An answer that is said word by word.
use crate::causes::Bad;
use om_io::Failed;
use om_rows::text_of;
use std::alloc::Global;

/// The words of an answer so far, with one blank between them.
#[derive(Drop)]
pub struct Said {
    alloc: Global,
    text: String,
}

impl Said {
    /// Nothing is said.
    pub fn new(alloc: Global) -> Said {
        Said {
            alloc,
            text: String::new(alloc),
        }
    }

    /// Says a word.
    pub fn word(&mut self, word: &str) -> Result<(), Bad> {
        if !self.text.is_empty() {
            self.text.push_str(" ")?;
        }
        self.text.push_str(word)?;
        Ok(())
    }

    /// Says bytes in hexadecimal digits.
    pub fn bytes(&mut self, bytes: &[u8]) -> Result<(), Bad> {
        let digits = text_of(self.alloc, bytes)?;
        self.word(digits.as_str())
    }

    /// Says a number in decimal digits.
    pub fn number(&mut self, n: u64) -> Result<(), Bad> {
        let digits = format!(in self.alloc; "{n}")?;
        self.word(digits.as_str())
    }

    /// Says whether a call did what was asked.
    pub fn done(&mut self, done: Result<(), Failed>) -> Result<(), Bad> {
        match done {
            Ok(()) => self.word("ok"),
            Err(Failed) => self.word("failed"),
        }
    }

    /// Says how many bytes were read and what the buffer then holds.
    pub fn read(&mut self, count: Result<usize, Failed>, buffer: &[u8]) -> Result<(), Bad> {
        match count {
            Ok(count) => {
                self.number(count as u64)?;
                self.bytes(buffer)
            }
            Err(Failed) => self.word("failed"),
        }
    }

    /// All that was said.
    pub fn into_text(self) -> String {
        self.text
    }
}
