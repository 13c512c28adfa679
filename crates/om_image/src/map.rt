// The map of an image, and what stands in it.
use om_io::Listed;

/// A place in the text of an object: the object's number, and a byte offset in its text.
#[derive(Clone, Copy, PartialEq, Eq, Debug)]
pub struct Place {
    pub obj: u32,
    pub off: u32,
}

/// A region of memory: a section of an object by its number, a common symbol by the number of its name, or the stack. A map
/// has no stack.
#[derive(Clone, Copy, PartialEq, Eq, Debug)]
pub enum Region {
    Sec { obj: u32, number: u8 },
    Common { sym: u32 },
    Stack,
}

/// What a slot of a global address table holds: a number, the address `off` bytes into a region, or that of a word.
#[derive(Clone, Copy, PartialEq, Eq, Debug)]
pub enum Target {
    Num(u64),
    Ptr { region: Region, off: u64 },
    Code(Place),
}

/// An object of the source: how many words its text has, and the number of the table that it uses.
#[derive(Clone, Copy, PartialEq, Eq, Debug)]
pub struct MapObj {
    pub words: u32,
    pub table: u32,
}

/// A global address table: its address in memory, and what its slots of 8 bytes hold, in order.
#[derive(Drop, Debug)]
pub struct MapTable {
    pub start: u64,
    pub slots: Listed<Target>,
}

/// A region with its address in memory and its size in bytes.
#[derive(Clone, Copy, PartialEq, Eq, Debug)]
pub struct MapRegion {
    pub region: Region,
    pub address: u64,
    pub size: u64,
}

/// A word of the source: the old word, the number of the image's word at its address, below 2^31, and whether it is kept.
#[derive(Clone, Copy, PartialEq, Eq, Debug)]
pub struct MapWord {
    pub old: u32,
    pub position: u32,
    pub kept: bool,
}

/// Where everything of the source went: its objects, the tables and regions of the data, and each word of the source in
/// order of object and offset.
#[derive(Drop, Debug)]
pub struct Map {
    pub objects: Listed<MapObj>,
    pub tables: Listed<MapTable>,
    pub regions: Listed<MapRegion>,
    pub words: Listed<MapWord>,
}
