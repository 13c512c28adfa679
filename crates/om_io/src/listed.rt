// A vector that contracts see as a list.
ghost use Rattle.std.specs.Prelude.{◌≡◌};

use std::marker::Model;

/// Items in order, which contracts see as a list. A type that a definition compares holds its vectors in these.
#[derive(Drop, Debug)]
pub struct Listed<T> {
    items: Vec<T>,
}

impl<T> Model for Listed<T> {
    ghost use Rattle.std.specs.Prelude.{List};

    ghost Value = { List T };

    ghost view = { λ b. b.items.items };
}

impl<T> Listed<T> {
    /// These items. It takes no memory.
    pub fn from_vec(v: Vec<T>) -> Self
        ensures { result ≡ v.items }
    {
        Listed { items: v }
    }

    /// The items in order.
    pub fn as_slice(&self) -> &[T]
        ensures { result.now ≡ self.now }
    {
        self.items.as_slice()
    }
}
