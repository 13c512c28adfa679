//! The one cause of a refusal.

/// No memory was left.
#[derive(Clone, Copy, PartialEq, Eq, Debug)]
pub struct NoMemory;
