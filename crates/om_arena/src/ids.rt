//! The names of an arena's lists and values.
ghost use Rattle.std.specs.Prelude.{◌≡◌};

use crate::keys::MaybeKey;
use std::marker::{Model, PhantomData};

/// A list of an arena, numbered from 0 in the order in which the lists were added.
#[derive(Clone, Copy, PartialEq, Eq, Debug)]
pub struct ListId {
    number: u32,
}

impl Model for ListId {
    ghost use Rattle.std.specs.Prelude.{ℕ};

    ghost Value = { ℕ };

    ghost view = { λ l. l.number };

    ghost inverse = { λ n. record { number = n } };
}

impl ListId {
    pub(crate) fn new(number: u32) -> ListId
        ensures { result ≡ number }
    {
        ListId { number }
    }

    /// How many lists were added before this one.
    pub fn number(self) -> usize
        ensures { result ≡ self }
    {
        self.number as usize
    }

    pub(crate) fn as_u32(self) -> u32
        ensures { result ≡ self }
    {
        self.number
    }
}

/// The place of one value of the type `T`. It is live from the insertion that gave it to the removal of its
/// value; a later insertion may give it again.
#[derive_where(Clone, Copy, PartialEq, Eq, Debug)]
pub struct Id<T> {
    key: u32,
    of: PhantomData<T>,
}

impl<T> Model for Id<T> {
    ghost use Rattle.std.specs.Prelude.{ℕ};

    ghost Value = { ℕ };

    ghost view = { λ i. i.key };

    ghost inverse = { λ n. record { key = n; of = record {} } };
}

impl<T> Id<T> {
    pub(crate) fn new(key: u32) -> Id<T>
        ensures { result ≡ key }
    {
        Id {
            key,
            of: PhantomData,
        }
    }

    pub(crate) fn key(self) -> u32
        ensures { result ≡ self }
    {
        self.key
    }

    /// The id's number. While the id is live no other has it.
    pub fn number(self) -> usize
        ensures { result ≡ self }
    {
        self.key as usize
    }

    pub(crate) fn of_key(key: MaybeKey) -> Option<Id<T>>
        ensures { result ≡ key }
    {
        match key.get() {
            Some(key) => Some(Id::new(key)),
            None => None,
        }
    }
}
