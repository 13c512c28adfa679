// Bytes that wait to be put.
ghost use Rattle.std.specs.Prelude.{◌≡◌, ◌<◌, ◌≤◌, ◌+◌, ◌++◌, ◌∷◌, [], length, decimal};
ghost use Rattle.std.specs.Fmt.{signed_decimal};
ghost use Rattle.om_io.specs.Digits.{hex_digit};
ghost use Rattle.om_fields.specs.Bytes.{Grows};
ghost use Rattle.om_listing.specs.Listing.{word_digits};

use arrayvec::ArrayVec;
use itoa::Buffer;
use std::marker::Model;

/// How many bytes a page has room for.
pub(crate) const SIZE: usize = 4096;

/// Room that is enough for any line.
pub(crate) const LINE: usize = 256;

/// Bytes that wait to be put, at most `SIZE` of them. Contracts see them as a list.
#[derive(Drop)]
pub(crate) struct Page {
    bytes: ArrayVec<u8, SIZE>,
}

impl Model for Page {
    ghost use Rattle.std.specs.Prelude.{List, ℕ};

    ghost Value = { List ℕ };

    ghost view = { λ p. p.bytes.items };
}

// One hexadecimal digit.
fn digit(n: u64) -> u8
    requires { n < 16 }
    ensures { result ≡ hex_digit n }
{
    let n = n as u8;
    if n < 10 { b'0' + n } else { b'a' - 10 + n }
}

// The lowest 8 digits, the highest of them first.
#[tactic(auto, unfolding(crate::specs::Listing::word_digits))]
fn digits(n: u64) -> [u8; 8]
    ensures { result ≡ word_digits n }
{
    let n1 = n / 16;
    let n2 = n1 / 16;
    let n3 = n2 / 16;
    let n4 = n3 / 16;
    let n5 = n4 / 16;
    let n6 = n5 / 16;
    let n7 = n6 / 16;
    [
        digit(n7 % 16),
        digit(n6 % 16),
        digit(n5 % 16),
        digit(n4 % 16),
        digit(n3 % 16),
        digit(n2 % 16),
        digit(n1 % 16),
        digit(n % 16),
    ]
}

impl Page {
    /// An empty page.
    pub(crate) fn new() -> Self
        ensures { result ≡ [] }
    {
        Page {
            bytes: ArrayVec::new(),
        }
    }

    /// How many bytes wait.
    pub(crate) fn len(&self) -> usize
        ensures { result ≡ length self.now }
    {
        self.bytes.len()
    }

    /// The bytes in order.
    pub(crate) fn as_slice(&self) -> &[u8]
        ensures { result.now ≡ self.now }
    {
        self.bytes.as_slice()
    }

    /// Nothing waits.
    pub(crate) fn clear(&mut self)
        ensures { self.new ≡ [] }
    {
        self.bytes.clear();
    }

    /// Appends these bytes.
    pub(crate) fn push(&mut self, bytes: &[u8])
        requires room { length self.old + length bytes.now ≤ SIZE }
        ensures grows { Grows self.old self.new bytes.now }
        ensures length { length self.new ≡ length self.old + length bytes.now }
    {
        let Ok(()) = self.bytes.try_extend_from_slice(bytes) else {
            unreachable!()
        };
    }

    /// Appends a number in decimal.
    pub(crate) fn push_number(&mut self, n: u64)
        requires room { length self.old + 40 ≤ SIZE }
        ensures grows { Grows self.old self.new (decimal n) }
        ensures length { length self.new ≤ length self.old + 40 }
    {
        let mut buffer = Buffer::new();
        self.push(buffer.format(n).as_bytes());
    }

    /// Appends a signed number in decimal.
    pub(crate) fn push_signed(&mut self, n: i32)
        requires room { length self.old + 40 ≤ SIZE }
        ensures grows { Grows self.old self.new (signed_decimal n) }
        ensures length { length self.new ≤ length self.old + 40 }
    {
        let mut buffer = Buffer::new();
        self.push(buffer.format(n).as_bytes());
    }

    /// Appends the lowest 8 hexadecimal digits of a number.
    pub(crate) fn push_word(&mut self, n: u64)
        requires room { length self.old + 8 ≤ SIZE }
        ensures grows { Grows self.old self.new (word_digits n) }
        ensures length { length self.new ≡ length self.old + 8 }
    {
        self.push(&digits(n));
    }
}
