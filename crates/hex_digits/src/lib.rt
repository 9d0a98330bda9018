// Octets as lowercase hexadecimal digits: written and read.
#![tactic(auto)]

ghost use Rattle.std.specs.Prelude.{◌≡◌, ◌+◌, ◌*◌, ◌<◌, ◌≤◌, ◌++◌, length, take, IfOk, Some, vec_items, MatchResult};
ghost use Rattle.std.specs.Option.{option_map};
ghost use Rattle.std.specs.Str.{IsAscii};
ghost use Rattle.hex_digits.specs.Digits.{digit_of, value_of, hex_of, octets_of};

use std::alloc::{AllocError, Global};
use std::fmt;

// Octets that are written as their digits.
#[derive(Clone, Copy)]
pub struct Hex<'a>(pub &'a [u8]);

impl fmt::Display for Hex<'_> {
    ghost output = { λ octets. Some (hex_of octets.0.now) };

    fn fmt<W: fmt::Write>(&self, f: &mut fmt::Formatter<W>) -> fmt::Result {
        let mut digits = [0; 2 * GROUP];
        for group in self.0.chunks(GROUP) {
            put_digits(&mut digits, group);
            f.write_str(str::from_utf8(&digits[..2 * group.len()]).unwrap())?;
        }
        Ok(())
    }
}

// Octets whose digits are written at once, since a write costs as much as many digits.
const GROUP: usize = 128;

// Puts the digits of a group to the front of a buffer.
fn put_digits(buffer: &mut [u8; 2 * GROUP], group: &[u8])
    requires { length group.now ≤ 128 }
    ensures digits { take (2 * length group.now) buffer.new ≡ hex_of group.now }
    ensures ascii { IsAscii (hex_of group.now) }
{
    for (i, octet) in group.iter().enumerate() {
        buffer[2 * i] = digit_of(octet / 16);
        buffer[2 * i + 1] = digit_of(octet % 16);
    }
}

// The digit of a number.
fn digit_of(value: u8) -> u8
    requires { value < 16 }
    ensures { result ≡ digit_of value }
{
    if value < 10 {
        b'0' + value
    } else {
        b'a' - 10 + value
    }
}

// The number of a digit, or none where it is no lowercase digit.
fn value_of(digit: u8) -> Option<u8>
    ensures { result ≡ value_of digit }
{
    match digit {
        b'0'..=b'9' => Some(digit - b'0'),
        b'a'..=b'f' => Some(digit - b'a' + 10),
        _ => None,
    }
}

// Writes octets behind a text, two digits each. Where memory is short, the text stays as it was.
pub fn push_hex(text: &mut Vec<u8>, octets: &[u8]) -> Result<(), AllocError>
    ensures after { MatchResult result (λ _. text.new.items ≡ text.old.items ++ hex_of octets.now) (λ _. text.new.items ≡ text.old.items) }
    ensures back { octets_of (hex_of octets.now) ≡ Some octets.now }
{
    text.reserve(2 * octets.len())?;
    for octet in octets {
        text.push_reserved(digit_of(octet / 16));
        text.push_reserved(digit_of(octet % 16));
    }
    Ok(())
}

// The octets that digits stand for, or none where the digits are not whole octets in lowercase.
pub fn octets_of(heap: Global, digits: &[u8]) -> Result<Option<Vec<u8>>, AllocError>
    ensures { IfOk result (λ octets. option_map vec_items octets ≡ octets_of digits.now) }
{
    let mut octets = Vec::new(heap);
    let mut rest = digits;
    while let [high, low, more @ ..] = rest {
        let (Some(high), Some(low)) = (value_of(*high), value_of(*low)) else {
            return Ok(None);
        };
        octets.push(16 * high + low)?;
        rest = more;
    }
    if rest.is_empty() {
        Ok(Some(octets))
    } else {
        Ok(None)
    }
}
