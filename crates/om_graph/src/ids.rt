//! The names of blocks and ops.
ghost use Rattle.std.specs.Prelude.{◌≡◌};

use crate::op::Op;
use om_arena::{Id, ListId};
use std::marker::Model;

/// A block of a graph. It is live until the block is dropped.
#[derive(Clone, Copy, PartialEq, Eq, Debug)]
pub struct BlockId {
    // The list of its ops, whose number is the block's.
    list: ListId,
}

impl Model for BlockId {
    ghost use Rattle.std.specs.Prelude.{ℕ};

    ghost Value = { ℕ };

    ghost view = { λ b. b.list };

    ghost inverse = { λ n. record { list = n } };
}

impl BlockId {
    pub(crate) fn new(list: ListId) -> BlockId
        ensures { result ≡ list }
    {
        BlockId { list }
    }

    pub(crate) fn list(self) -> ListId
        ensures { result ≡ self }
    {
        self.list
    }

    /// The block's number among all that the graph was made with. It is never given again.
    pub fn number(self) -> usize
        ensures { result ≡ self }
    {
        self.list.number()
    }
}

/// An op of a graph. It is live until the op is deleted or its block is dropped.
#[derive(Clone, Copy, PartialEq, Eq, Debug)]
pub struct OpId {
    id: Id<Op>,
}

impl Model for OpId {
    ghost use Rattle.std.specs.Prelude.{ℕ};

    ghost Value = { ℕ };

    ghost view = { λ o. o.id };

    ghost inverse = { λ n. record { id = n } };
}

impl OpId {
    pub(crate) fn new(id: Id<Op>) -> OpId
        ensures { result ≡ id }
    {
        OpId { id }
    }

    pub(crate) fn found(id: Option<Id<Op>>) -> Option<OpId>
        ensures { result ≡ id }
    {
        match id {
            Some(id) => Some(OpId::new(id)),
            None => None,
        }
    }

    pub(crate) fn id(self) -> Id<Op>
        ensures { result ≡ self }
    {
        self.id
    }

    /// The op's number. While the op is live no other has it.
    pub fn number(self) -> usize
        ensures { result ≡ self }
    {
        self.id.number()
    }
}
