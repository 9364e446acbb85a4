//! Numbers in decimal digits.

ghost use Rattle.std.specs.Prelude.{◌≡◌};
ghost use Rattle.mp_bytes.specs.Digits.{number_of};

/// The number that a text of decimal digits spells, where there are at most so many `digits`, leading zeros counted,
/// and the number is at most `most`. A text without a digit, or with any other byte, spells none.
pub fn read_number(text: &[u8], digits: usize, most: u128) -> Option<u128>
    ensures { result ≡ number_of digits most text.now }
{
    if text.is_empty() || text.len() > digits {
        return None;
    }
    let mut value: u128 = 0;
    for digit in text {
        if !digit.is_ascii_digit() {
            return None;
        }
        let shifted = value.checked_mul(10)?;
        value = shifted.checked_add(u128::from(*digit - b'0'))?;
    }
    if value <= most { Some(value) } else { None }
}
