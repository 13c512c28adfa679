// How many rows of each kind agreed.
use std::alloc::{AllocError, Global};

// One kind and its rows so far.
#[derive(Drop)]
struct Line {
    kind: String,
    agreed: u64,
    differed: u64,
}

/// How many rows of each kind agreed and how many differed, in the order in which the kinds came first.
#[derive(Drop)]
pub struct Tally {
    alloc: Global,
    lines: Vec<Line>,
}

impl Tally {
    /// No rows yet.
    pub fn new(alloc: Global) -> Tally {
        Tally {
            alloc,
            lines: Vec::new(alloc),
        }
    }

    /// Counts a row of a kind.
    pub fn note(&mut self, kind: &str, agrees: bool) -> Result<(), AllocError> {
        let agreed = u64::from(agrees);
        for line in self.lines.iter_mut() {
            if line.kind.as_str() == kind {
                line.agreed = line.agreed.saturating_add(agreed);
                line.differed = line.differed.saturating_add(1 - agreed);
                return Ok(());
            }
        }
        self.lines.push(Line {
            kind: String::from_str(self.alloc, kind)?,
            agreed,
            differed: 1 - agreed,
        })?;
        Ok(())
    }

    /// A line for each kind: `KIND: N agree, M differ`.
    pub fn text(&self) -> Result<String, AllocError> {
        let mut text = String::new(self.alloc);
        for line in &self.lines {
            let said = format!(in self.alloc;
                "{}: {} agree, {} differ\n",
                line.kind, line.agreed, line.differed
            )?;
            text.push_str(said.as_str())?;
        }
        Ok(text)
    }
}
