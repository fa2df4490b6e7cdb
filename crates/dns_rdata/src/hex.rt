//! Reads and writes octets as hex digits.
ghost use Rattle.std.specs.Prelude.{◌≡◌, ◌<◌, ◌/◌, ◌%◌, [], ◌∷◌, IfOk, IfSome};
ghost use Rattle.std.specs.Char.{digit_char};
ghost use Rattle.dns_name.specs.TextForm.{Gives};
ghost use Rattle.dns_rdata.specs.HexForm.{hex_front, digit_of, AppendsHex};

use std::alloc::AllocError;

/// Appends to `octets` the octets that a text spells in hex digits of either case, two digits per
/// octet.
///
/// Returns false if the text contains anything but hex digits, or an odd number of them; `octets`
/// may have grown even so. Fails only if allocation fails.
pub(crate) fn append_hex(text: &[u8], octets: &mut Vec<u8>) -> Result<bool, AllocError>
    ensures { IfOk result (λ said. AppendsHex text.now said octets.old.items octets.new.items) }
{
    let mut rest = text;
    'octets: while !rest.is_empty() {
        let Some((octet, others)) = first_pair(rest) else {
            return Ok(false);
        };
        octets.push(octet)?;
        rest = others;
    }
    Ok(true)
}

pub(crate) fn hex_digits(octet: u8) -> [u8; 2]
    ensures { result ≡ digit_char (octet / 16) ∷ digit_char (octet % 16) ∷ [] }
{
    [hex_digit(octet / 16), hex_digit(octet % 16)]
}

pub(crate) fn hex_digit(value: u8) -> u8
    requires { value < 16 }
    ensures { result ≡ digit_char value }
{
    if value < 10 {
        return b'0' + value;
    }
    b'a' + (value - 10)
}

// The octet that the first two digits of the text spell, and the text after them.
#[tactic(auto, unfolding(crate::specs::HexForm::hex_front))]
fn first_pair(text: &[u8]) -> Option<(u8, &[u8])>
    ensures { Gives result (hex_front text.now) }
{
    let (high, rest) = text.split_first()?;
    let (low, rest) = rest.split_first()?;
    let octet = digit_value(*high)? * 16 + digit_value(*low)?;
    Some((octet, rest))
}

pub(crate) fn digit_value(digit: u8) -> Option<u8>
    ensures value { result ≡ digit_of digit }
    ensures bound { IfSome result (λ value. value < 16) }
{
    match digit {
        b'0'..=b'9' => Some(digit - b'0'),
        b'A'..=b'F' => Some(digit - b'A' + 10),
        b'a'..=b'f' => Some(digit - b'a' + 10),
        _ => None,
    }
}
