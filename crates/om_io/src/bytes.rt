// Bytes and names that other types hold: contracts see them as lists.
ghost use Rattle.std.specs.Prelude.{◌≡◌};

use std::marker::Model;

/// The bytes of a file or of a part of one. Contracts see them as a list of numbers below 256.
#[derive(Drop, Debug)]
pub struct Bytes {
    items: Vec<u8>,
}

impl Model for Bytes {
    ghost use Rattle.std.specs.Prelude.{List, ℕ};

    ghost Value = { List ℕ };

    ghost view = { λ b. b.items.items };
}

impl Bytes {
    /// These bytes. It takes no memory.
    pub fn from_vec(v: Vec<u8>) -> Self
        ensures { result ≡ v.items }
    {
        Bytes { items: v }
    }

    /// The bytes in order.
    pub fn as_slice(&self) -> &[u8]
        ensures { result.now ≡ self.now }
    {
        &self.items
    }
}

/// The name of a symbol, a section or a file: bytes, whether they are UTF-8 or not. Contracts see it
/// as a list of numbers below 256.
#[derive(Drop, Debug)]
pub struct Name {
    items: Vec<u8>,
}

impl Model for Name {
    ghost use Rattle.std.specs.Prelude.{List, ℕ};

    ghost Value = { List ℕ };

    ghost view = { λ b. b.items.items };
}

impl Name {
    /// These bytes. It takes no memory.
    pub fn from_vec(v: Vec<u8>) -> Self
        ensures { result ≡ v.items }
    {
        Name { items: v }
    }

    /// The bytes in order.
    pub fn as_slice(&self) -> &[u8]
        ensures { result.now ≡ self.now }
    {
        &self.items
    }
}
