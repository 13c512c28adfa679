// Numbers in a text.
ghost use Rattle.std.specs.Prelude.{◌≡◌, ◌<◌, ◌^◌, true, false, min, option_map};
ghost use Rattle.std.specs.List.{list_all};
ghost use Rattle.om_asm.specs.Numerals.{is_digit as digit, are_digits as digits, value_behind, signed, begins_zero as zero_first, is_plain_digits as plain_digits};
ghost use Rattle.om_asm.specs.Reading.{decimal as decimal_of, if_plain, number_of, number_at, if_sized};

use crate::cutting::behind;

// What all greater numbers count as: it fits no field.
const MOST: u128 = 1 << 64;

/// A number: its sign and its size, at most 2^64.
#[derive(Clone, Copy, PartialEq, Eq, Debug)]
pub struct Number {
    pub minus: bool,
    pub size: u128,
}

fn is_digit(c: u8) -> bool
    ensures { result ≡ digit c }
{
    c >= b'0' && c <= b'9'
}

fn all_digits(text: &[u8]) -> bool
    ensures { result ≡ list_all digit text.now }
{
    text.iter().all(|c| is_digit(*c))
}

fn are_decimal(text: &[u8]) -> bool
    ensures { result ≡ digits false text.now }
{
    !text.is_empty() && all_digits(text)
}

fn begins_zero(text: &[u8]) -> bool
    ensures { result ≡ zero_first text.now }
{
    match text.first() {
        Some(c) => *c == b'0',
        None => false,
    }
}

/// Whether these are digits of a decimal number without leading zeros.
pub(crate) fn is_plain(text: &[u8]) -> bool
    ensures { result ≡ plain_digits text.now }
{
    are_decimal(text) && (!begins_zero(text) || text.len() == 1)
}

/// The value of decimal digits, at most 2^64.
pub(crate) fn decimal_value(text: &[u8]) -> u128
    requires { digits false text.now ≡ true }
    ensures { result ≡ min (2 ^ 64) (value_behind 10 0 text.now) }
{
    let mut value = 0u128;
    for c in text {
        value = (10 * value + u128::from(*c - b'0')).min(MOST);
    }
    value
}

// The number that digits behind a sign say, where they are as an instruction has them.
fn number_behind(minus: bool, digits: &[u8]) -> Option<Number>
    ensures { result ≡ option_map number_of (if_plain (decimal_of minus digits.now)) }
{
    if !is_plain(digits) || minus && begins_zero(digits) {
        return None;
    }
    Some(Number {
        minus,
        size: decimal_value(digits),
    })
}

/// The decimal number that a text is, without leading zeros and with no sign before 0.
#[tactic(auto, unfolding(crate::specs::Reading::number_at, crate::specs::Reading::decimal_at))]
pub(crate) fn decimal(text: &[u8]) -> Option<Number>
    ensures { result ≡ number_at text.now }
{
    match behind(text, b'-') {
        Some(digits) => number_behind(true, digits),
        None => number_behind(false, text),
    }
}

impl Number {
    /// Its value, where it is -low to high.
    pub(crate) fn within(self, low: u32, high: u32) -> Option<i32>
        requires low { low < 2 ^ 31 }
        requires high { high < 2 ^ 31 }
        ensures { result ≡ if_sized low high self (signed self.minus self.size) }
    {
        let most = if self.minus { low } else { high };
        if self.size > u128::from(most) {
            return None;
        }
        let size = self.size as i32;
        Some(if self.minus { -size } else { size })
    }
}
