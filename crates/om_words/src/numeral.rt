// Numbers in words.
ghost use Rattle.std.specs.Prelude.{◌≡◌, ◌≤◌, ◌<◌, ◌^◌, ◌&&◌, length, take, drop, IsTrue, true};
ghost use Rattle.om_words.specs.Numerals.{is_digit as digit, are_digits as digits, value_of, value_behind, is_number, number_in};

fn is_digit(c: u8) -> bool
    ensures { result ≡ digit c }
{
    c >= b'0' && c <= b'9'
}

fn are_digits(text: &[u8]) -> bool
    ensures { result ≡ digits text.now }
{
    for c in text {
        if !is_digit(*c) {
            return false;
        }
    }
    true
}

// The value of at most 20 digits.
fn value(text: &[u8]) -> u128
    requires count { length text.now ≤ 20 }
    requires each { digits text.now ≡ true }
    ensures { result ≡ value_of text.now }
{
    let mut value = 0u128;
    for c in text {
        value = 10 * value + u128::from(*c - b'0');
    }
    value
}

/// The number that a word says in 1 to 20 decimal digits, where it is below 2^64.
pub(crate) fn number(word: &str) -> Option<u64>
    ensures { result ≡ number_in word.now }
{
    let text = word.as_bytes();
    if text.is_empty() || text.len() > 20 || !are_digits(text) {
        return None;
    }
    u64::try_from(value(text)).ok()
}
