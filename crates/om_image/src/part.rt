// The parts of a map, and the rules on section headers, by which readers are told apart.

/// A part of a map: objects, tables, slots, regions, source words.
#[derive(Clone, Copy, PartialEq, Eq, Debug)]
pub enum Part {
    Object,
    Table,
    Slot,
    Extent,
    Word,
}

/// A rule that is tested at each section header by itself: its name, that its bytes lie in the file, and its address
/// and size.
#[derive(Clone, Copy, PartialEq, Eq, Debug)]
pub enum HeadRule {
    Named,
    Inside,
    Placed,
}
