//! Reads decimal numbers from the text of zone files.
ghost use Rattle.std.specs.Prelude.{◌≡◌, ◌↔◌, ℕ, ◌<◌, ◌≤◌, ◌^◌, Some, decimal, SomeIff};
ghost use Rattle.std.specs.Str.Parse.{AllDigits, digits_value};

/// The number, at most `most`, that a word spells in decimal: `0`, or digits without a leading
/// zero.
///
/// `None` for any other word, such as `010`, and for a greater number.
pub fn read_number(word: &[u8], most: u32) -> Option<u32>
    ensures { (n : ℕ) → (result ≡ Some n) ↔ ((word.now ≡ decimal n) × (n ≤ most)) }
{
    let first = *word.first()?;
    if first == b'0' && word.len() != 1 {
        return None;
    }
    let number = number_of_digits(word)?;
    if number > most {
        return None;
    }
    Some(number)
}

// The value of decimal digits, with or without leading zeros. `None` if another octet is among
// them, or the value exceeds 32 bits.
fn number_of_digits(digits: &[u8]) -> Option<u32>
    ensures { SomeIff result (AllDigits 10 digits.now × (digits_value 10 digits.now < 2 ^ 32))
        (digits_value 10 digits.now) }
{
    let mut number: u32 = 0;
    'digits: for digit in digits {
        if !digit.is_ascii_digit() {
            return None;
        }
        number = number
            .checked_mul(10)?
            .checked_add(u32::from(*digit - b'0'))?;
    }
    Some(number)
}
