// What a system call asks for, before it is done.

/// Where bytes are put.
#[derive(Clone, Copy, PartialEq, Eq, Debug)]
pub(crate) enum Descriptor {
    /// Number 1.
    Out,
    /// Number 2.
    Err,
}

/// What a system call asks for.
#[derive(Clone, Copy, PartialEq, Eq, Debug)]
pub(crate) enum Request {
    /// The run ends with a status.
    Exit(u8),
    /// An answer in v0, and a3.
    Answer(u64, u64),
    /// So many bytes at a1 go to a descriptor.
    Put(Descriptor, u64),
    /// So many bytes of the input go to a1.
    Take(u64),
    /// Where the heap ends.
    HeapEnd,
    /// The heap gets a size.
    Resize(u64),
}
