// Numbers as text, with no memory taken.
ghost use Rattle.std.specs.Prelude.{◌≡◌, ◌<◌, ◌≤◌, ℕ, List, Option, Some, decimal};
ghost use Rattle.om_io.specs.Causes.{HasCause};
ghost use Rattle.om_io.specs.Digits.{hex, hex_digit};
ghost use Rattle.om_io.specs.Outside.{Appends};

use crate::{Failed, Sink};
use itoa::Buffer;

/// Writes a number in decimal digits with no leading zeros; zero is one digit.
///
/// The text is put in one piece, so `Failed` means that the sink's count of faults rose. It takes no memory.
pub fn put_dec<S: Sink>(s: &mut S, n: u128) -> Result<(), Failed>
    ensures appends { (old : List ℕ) → S.written s.old ≡ Some old → Appends old (S.written s.new) (decimal n) result }
    ensures cause { HasCause (S.faults s.old) (S.faults s.new) result }
{
    let mut buffer = Buffer::new();
    s.put(buffer.format(n).as_bytes())
}

// One hexadecimal digit.
fn hex_digit_of(digit: u64) -> u8
    requires { digit < 16 }
    ensures { result ≡ hex_digit digit }
{
    let digit = digit as u8;
    if digit < 10 {
        b'0' + digit
    } else {
        b'a' - 10 + digit
    }
}

/// Writes the lowest `digits` hexadecimal digits of a number in lower case, the highest of them first.
///
/// `digits` is 1 to 16. Higher digits are left out, and a small number gets leading zeros. The text is
/// put in one piece, so `Failed` means that the sink's count of faults rose. It takes no memory.
pub fn put_hex<S: Sink>(s: &mut S, n: u64, digits: u8) -> Result<(), Failed>
    requires one { 1 ≤ digits }
    requires most { digits ≤ 16 }
    ensures appends { (old : List ℕ) → S.written s.old ≡ Some old → Appends old (S.written s.new) (hex digits n) result }
    ensures cause { HasCause (S.faults s.old) (S.faults s.new) result }
{
    let mut text = [0u8; 16];
    let count = usize::from(digits);
    let mut rest = n;
    for place in (0..count).rev() {
        text[place] = hex_digit_of(rest % 16);
        rest /= 16;
    }
    s.put(&text[..count])
}
