//! Samples that are written as their texts.

ghost use Rattle.std.specs.Prelude.{◌≡◌, ◌+◌, ◌/◌, ◌^◌, ◌<◌, ◌≤◌, ◌∷◌, [], ◌++◌, length, decimal, Ok, Some, IsOk, OnOk};
ghost use Rattle.std.specs.Prelude.{OnErr, unsigned_abs};
ghost use Rattle.mp_nums.specs.declared.widths.Width.{Width};
ghost use Rattle.mp_defs.specs.Series.{reading_of};
ghost use Rattle.mp_text.specs.SampleText.{last_digits, fraction_text, magnitude_text, number_text, reading};
ghost use Rattle.mp_text.specs.SampleText.{sample_text, Fits};

use itoa::Buffer;
use mp_nums::{Memory, Sample, Text, Whole};

/// The most bytes of a sample: a sign, fifteen digits and a point.
const LONGEST: u64 = 17;

/// Appends the text of a sample that is counted in units of `10^-scale`: `?` where it is missing, and else a minus
/// where it is negative, the whole part, and, where the scale isn't 0, a point and exactly `scale` digits.
pub fn write_sample(sample: Sample, scale: u8, out: &mut Text) -> Result<(), Memory>
    requires { scale ≤ 9 }
    ensures ok { OnOk result (out.new.items ≡ out.old.items ++ sample_text scale (reading_of sample)) }
    ensures err { OnErr result (out.new.items ≡ out.old.items) }
    ensures succeeds { 17 ≤ out.old.spare → IsOk result }
    ensures read_back { OnOk result ((width : Width) → Fits width (reading_of sample)
        → reading width scale (sample_text scale (reading_of sample)) ≡ Ok (reading_of sample)) }
{
    out.reserve(LONGEST)?;
    match sample {
        Sample::Missing => put(out, b'?'),
        Sample::Value(number) => put_number(out, number, scale),
    }
    Ok(())
}

/// Appends a byte, for which there is room.
fn put(out: &mut Text, byte: u8)
    requires { 0 < out.old.spare }
    ensures items { out.new.items ≡ out.old.items ++ byte ∷ [] }
    ensures spare { out.old.spare ≤ out.new.spare + 1 }
{
    out.push(byte).unwrap();
}

fn put_number(out: &mut Text, number: Whole, scale: u8)
    requires places { scale ≤ 9 }
    requires room { LONGEST ≤ out.old.spare }
    ensures items { out.new.items ≡ out.old.items ++ number_text scale number }
    ensures read_back { (width : Width) → Fits width (Some number)
        → reading width scale (number_text scale number) ≡ Ok (Some number) }
{
    let number = number.get();
    if number < 0 {
        put(out, b'-');
    }
    put_magnitude(out, number.unsigned_abs(), scale);
}

fn put_magnitude(out: &mut Text, magnitude: u64, scale: u8)
    requires places { scale ≤ 9 }
    requires room { 16 ≤ out.old.spare }
    requires fits { magnitude ≤ 2 ^ 47 }
    ensures { out.new.items ≡ out.old.items ++ magnitude_text scale magnitude }
{
    put_whole(out, magnitude / 10u64.pow(u32::from(scale)));
    if scale > 0 {
        put(out, b'.');
        put_last_digits(out, magnitude, scale);
    }
}

fn put_whole(out: &mut Text, whole: u64)
    requires { length (decimal whole) ≤ out.old.spare }
    ensures items { out.new.items ≡ out.old.items ++ decimal whole }
    ensures spare { out.old.spare ≤ out.new.spare + length (decimal whole) }
{
    for digit in Buffer::new().format(whole).as_bytes() {
        put(out, *digit);
    }
}

/// Appends this many of the last digits of a number.
fn put_last_digits(out: &mut Text, number: u64, count: u8)
    requires { count ≤ out.old.spare }
    ensures items { out.new.items ≡ out.old.items ++ last_digits count number }
    ensures spare { out.old.spare ≤ out.new.spare + count }
{
    if count > 0 {
        put_last_digits(out, number / 10, count - 1);
        put(out, b'0' + (number % 10) as u8);
    }
}
