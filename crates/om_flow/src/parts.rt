//! Blocks by number, and what the solvers ask of each.

/// What a block does to r29.
#[derive(Clone, Copy, PartialEq, Eq, Debug)]
pub enum Transfer {
    /// It leaves what was there.
    Keep,
    /// It leaves the global pointer of this table.
    SetTable(u32),
    /// It leaves another value.
    SetUnknown,
}

/// What r29 holds at a block's start.
#[derive(Clone, Copy, PartialEq, Eq, Debug)]
pub enum Fact {
    /// No walk comes here.
    Any,
    /// The global pointer of this table.
    Table(u32),
    /// No one table's.
    Unknown,
}

/// A block. Its number is its place in the vector of all. Bit r of a mask is register r.
#[derive(Clone, Copy, Debug)]
pub struct FlowBlock {
    /// A block to which control goes from its end, or the number of blocks: the hub, from which control goes to each landing
    /// place. A block from which control goes nowhere has the number of one that does nothing and goes nowhere.
    pub first: u32,
    /// Another one, or the same.
    pub second: u32,
    /// What it does to r29.
    pub transfer: Transfer,
    /// The registers that it reads before it writes them.
    pub reads: u32,
    /// The registers that it writes.
    pub writes: u32,
}

/// Where control goes between numbered blocks, at most 2^32 - 2 of them.
#[derive(Drop, Debug)]
pub struct Flow {
    /// The blocks.
    pub blocks: Vec<FlowBlock>,
    /// The numbers of the blocks to which control goes from the hub, in any order and more than once or not.
    pub lands: Vec<u32>,
    /// The number of the block at which control starts.
    pub entry: u32,
}
