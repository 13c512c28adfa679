// How many items the parts of a map have.

/// The counts of a map: objects, tables, slots of all tables, regions, source words.
#[derive(Clone, Copy, PartialEq, Eq, Debug)]
pub struct Shape {
    pub objects: usize,
    pub tables: usize,
    pub slots: usize,
    pub regions: usize,
    pub words: usize,
}
