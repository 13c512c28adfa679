// Sets of places of words.
ghost use Rattle.std.specs.Prelude.{◌≡◌, ◌||◌, ◌/◌, ◌%◌, ◌<◌, ℕ, true, false, IfOk, length};
ghost use Rattle.om_value.specs.declared.value.Place.{Place as AnyPlace};
ghost use Rattle.om_value.specs.Same.{place_eq};
ghost use Rattle.om_lift.specs.Places.{has, row, IsSet};

use om_io::NoMemory;
use om_prog::Program;
use om_value::Place;
use std::alloc::Global;

/// A set of places of words.
#[derive(Drop)]
pub(crate) struct PlaceSet {
    // For each word of each object whether its place is in the set.
    rows: Vec<Vec<bool>>,
}

impl PlaceSet {
    /// The empty set of places of a program's words.
    pub(crate) fn new(alloc: Global, p: &Program) -> Result<PlaceSet, NoMemory>
        ensures { IfOk result (λ s. IsSet p.now (λ q. false) s) }
    {
        let mut rows = Vec::new(alloc);
        for obj in 0..p.objects() {
            rows.push(vec![in alloc; false; p.words(obj) as usize]?)?;
        }
        Ok(PlaceSet { rows })
    }

    /// Puts a place into the set, if it is that of a word.
    pub(crate) fn insert(&mut self, at: Place)
        ensures now { (q : AnyPlace) → q.off % 4 ≡ 0 → q.off / 4 < length (row self.old q.obj) → has self.new q ≡ (place_eq at q || has self.old q) }
        ensures sized { (obj : ℕ) → length (row self.new obj) ≡ length (row self.old obj) }
    {
        let obj = at.obj as usize;
        let word = (at.off / 4) as usize;
        if at.off % 4 == 0 && obj < self.rows.len() {
            let row = &mut self.rows[obj];
            if word < row.len() {
                row[word] = true;
            }
        }
    }

    /// Whether the place of a word is in the set.
    pub(crate) fn contains(&self, at: Place) -> bool
        ensures { result ≡ has self.now at }
    {
        match self.rows.get(at.obj as usize) {
            Some(row) => row.get((at.off / 4) as usize).copied().unwrap_or(false),
            None => false,
        }
    }
}
