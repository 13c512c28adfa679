// What a system call asks for, before it is done.
use om_value::Region;

/// Where bytes are put.
#[derive(Clone, Copy, PartialEq, Eq, Debug)]
pub(crate) enum Descriptor {
    /// Number 1.
    Out,
    /// Number 2.
    Err,
}

/// Bytes of a region, which reach no further than it.
#[derive(Clone, Copy, PartialEq, Eq, Debug)]
pub(crate) struct Span {
    /// The region.
    pub(crate) region: Region,
    /// Bytes from its start.
    pub(crate) at: u64,
    /// How many.
    pub(crate) count: u64,
}

/// What a system call asks for.
#[derive(Clone, Copy, PartialEq, Eq, Debug)]
pub(crate) enum Request {
    /// The run ends with a status.
    Exit(u8),
    /// An answer in v0, and a3.
    Answer(u64, u64),
    /// Bytes go to a descriptor.
    Put(Descriptor, Span),
    /// Bytes of the input go to a region.
    Take(Span),
    /// Where the heap ends.
    HeapEnd,
    /// The heap gets a size.
    Resize(u64),
    /// An address would be shown.
    Observe,
}
