//! The reversal of a diagonal's number.

ghost use Rattle.std.specs.Prelude.{◌≡◌, ◌<◌};
ghost use Rattle.mp_results.specs.Reversal as specs;

/// How many binary digits a diagonal's number has.
const DIGITS: u32 = 18;

/// How many numbers have so many digits.
pub(crate) const NUMBERS: u64 = 262_144;

/// The number whose binary digits are those of a diagonal's number in the opposite order.
pub(crate) fn reversal(diagonal: u64) -> u64
    ensures reversal { result ≡ specs.reversal diagonal }
    ensures small { result < NUMBERS }
{
    let mut rest = diagonal;
    let mut reversed = 0;
    for digit in 0..DIGITS {
        reversed = 2 * reversed + rest % 2;
        rest /= 2;
    }
    reversed
}
