//! Samples that are read from their texts.

ghost use Rattle.std.specs.Prelude.{◌≡◌, ◌≤◌, ◌-◌, ◌++◌, ◌&&◌, not, true, false, position, Ok, Err, Some, None, IfOk};
ghost use Rattle.std.specs.Prelude.{IfErr, IfSome, IfNone, MatchOption, IsTrue, take, drop, replicate, length, fold};
ghost use Rattle.std.specs.Prelude.{min, pos, option_map, ℤ};
ghost use Rattle.std.specs.List.{before_first, after_first, list_all};
ghost use Rattle.std.specs.Char.{is_ascii_digit};
ghost use Rattle.mp_nums.specs.declared.widths.Width.TheVariants.{Narrow};
ghost use Rattle.mp_defs.specs.Series.{reading_of};
ghost use Rattle.mp_bytes.specs.Bytes.{is_empty};
ghost use Rattle.mp_bytes.specs.Digits.{next_digit, value_of};
ghost use Rattle.mp_defs.specs.Limits.{least_sample, greatest_sample};
ghost use Rattle.mp_text.specs.SampleText.{reading, number_of, numeral_of, parted, has_form, is_exact, fixed, units_of};
ghost use Rattle.mp_text.specs.SampleText.{signed, trimmed, is_missing, is_within, is_point, without_leading_blanks};
ghost use Rattle.mp_text.specs.SampleText.{without_trailing_blanks};
ghost use Rattle.mp_text.specs.Spelling.{seen};

use crate::refusal::SampleFault;
use mp_bytes::{is_blank, same_text};
use mp_nums::{Sample, Whole, Width};

/// Greater magnitudes are read as this one, which no sample has.
const TOO_GREAT: u64 = 1_000_000_000_000_000_000;

const ZEROS: [u8; 9] = *b"000000000";

/// The sample that a text spells, in units of `10^-scale`.
///
/// Spaces and tabs at both ends are ignored. A missing sample is nothing, `?`, `nan`, `NaN` or `NA`. A number is an
/// optional sign, digits, and optionally a point and digits, with at least one digit in all. Digits past the scale are
/// taken where they are 0. It takes no memory.
///
/// The faults are tested in this order: `Form` for any other text, `Fine` for a digit past the scale that isn't 0, and
/// `Range` for a number that has more bits with sign than the width: 32 or 48.
pub fn read_sample(text: &[u8], scale: u8, width: Width) -> Result<Sample, SampleFault>
    requires { scale ≤ 9 }
    ensures sample { IfOk result (λ sample. reading width scale text.now ≡ Ok (reading_of sample)) }
    ensures fault { IfErr result (λ fault. reading width scale text.now ≡ Err fault) }
{
    let text = trimmed(text);
    if is_missing(text) {
        return Ok(Sample::Missing);
    }
    let numeral = Numeral::of(text);
    if !numeral.has_form() {
        return Err(SampleFault::Form);
    }
    if !numeral.is_exact(scale) {
        return Err(SampleFault::Fine);
    }
    match taken(numeral.units(scale), width) {
        Some(number) => Ok(Sample::Value(number)),
        None => Err(SampleFault::Range),
    }
}

/// The number, where it has no more bits than the width.
fn taken(number: i64, width: Width) -> Option<Whole>
    ensures found { IfSome result (λ whole. whole ≡ number) }
    ensures within { IfSome result (λ _. is_within (least_sample width) (greatest_sample width) number ≡ true) }
    ensures none { IfNone result (is_within (least_sample width) (greatest_sample width) number ≡ false) }
{
    match width {
        Width::Narrow => narrow(number),
        Width::Wide => Whole::new(number),
    }
}

/// The number, where it has no more than 32 bits.
fn narrow(number: i64) -> Option<Whole>
    ensures found { IfSome result (λ whole. whole ≡ number) }
    ensures within { IfSome result (λ _. is_within (least_sample Narrow) (greatest_sample Narrow) number ≡ true) }
    ensures none { IfNone result (is_within (least_sample Narrow) (greatest_sample Narrow) number ≡ false) }
{
    match i32::try_from(number) {
        Ok(number) => Some(Whole::from(number)),
        Err(_) => None,
    }
}

/// A number as it is spelled: its sign, the digits before the point, and those behind it.
#[derive(Clone, Copy)]
struct Numeral<'a> {
    is_negative: bool,
    whole: &'a [u8],
    fraction: &'a [u8],
}

impl<'a> Numeral<'a> {
    ghost use Rattle.mp_nums.specs.declared.widths.Width.{Width};

    fn of(text: &'a [u8]) -> Numeral<'a>
        ensures { seen result ≡ numeral_of text.now }
    {
        match text.split_first() {
            Some((b'-', magnitude)) => Numeral::parted(true, magnitude),
            Some((b'+', magnitude)) => Numeral::parted(false, magnitude),
            _ => Numeral::parted(false, text),
        }
    }

    fn parted(is_negative: bool, magnitude: &'a [u8]) -> Numeral<'a>
        ensures { seen result ≡ parted is_negative magnitude.now }
    {
        match point_in(magnitude) {
            Some(point) => Numeral {
                is_negative,
                whole: &magnitude[..point],
                fraction: &magnitude[point + 1..],
            },
            None => Numeral {
                is_negative,
                whole: magnitude,
                fraction: &[],
            },
        }
    }

    fn has_form(&self) -> bool
        ensures { result ≡ has_form (seen self.now) }
    {
        self.has_byte() && are_digits(self.whole) && are_digits(self.fraction)
    }

    fn has_byte(&self) -> bool
        ensures { result ≡ not (is_empty (seen self.now).whole && is_empty (seen self.now).fraction) }
    {
        !(self.whole.is_empty() && self.fraction.is_empty())
    }

    fn is_exact(&self, scale: u8) -> bool
        ensures { result ≡ is_exact scale (seen self.now) }
    {
        self.fraction
            .iter()
            .skip(usize::from(scale))
            .all(|digit| *digit == b'0')
    }

    /// The number in units of `10^-scale`, or one that no sample has either.
    fn units(&self, scale: u8) -> i64
        requires form { IsTrue (has_form (seen self.now)) }
        requires places { scale ≤ 9 }
        ensures within { (width : Width) → is_within (least_sample width) (greatest_sample width) result
            ≡ is_within (least_sample width) (greatest_sample width) (units_of scale (seen self.now)) }
        ensures value { (width : Width) → is_within (least_sample width) (greatest_sample width) result ≡ true
            → result ≡ units_of scale (seen self.now) }
    {
        let magnitude = self.magnitude(scale) as i64;
        if self.is_negative {
            -magnitude
        } else {
            magnitude
        }
    }

    fn magnitude(&self, scale: u8) -> u64
        requires form { IsTrue (has_form (seen self.now)) }
        requires places { scale ≤ 9 }
        ensures { result ≡ min (value_of (self.now.whole.now ++ fixed scale self.now.fraction.now)) TOO_GREAT }
    {
        let scale = usize::from(scale);
        let kept = self.fraction.len().min(scale);
        let whole = continued(0, self.whole);
        let exact = continued(whole, &self.fraction[..kept]);
        continued(exact, &ZEROS[..scale - kept])
    }
}

/// Where the first point of a text stands.
fn point_in(text: &[u8]) -> Option<usize>
    ensures { result ≡ position is_point text.now }
{
    text.iter().position(|byte| *byte == b'.')
}

fn are_digits(text: &[u8]) -> bool
    ensures { result ≡ list_all is_ascii_digit text.now }
{
    text.iter().all(|byte| byte.is_ascii_digit())
}

/// The number that these digits continue, or `TOO_GREAT` where it is greater.
fn continued(start: u64, digits: &[u8]) -> u64
    requires start_small { start ≤ TOO_GREAT }
    requires digits { IsTrue (list_all is_ascii_digit digits.now) }
    ensures { result ≡ min (fold next_digit start digits.now) TOO_GREAT }
{
    let mut value = start;
    for digit in digits {
        value = (10 * value + u64::from(*digit - b'0')).min(TOO_GREAT);
    }
    value
}

/// The text without the spaces and tabs at its ends.
fn trimmed(text: &[u8]) -> &[u8]
    ensures { result.now ≡ trimmed text.now }
{
    without_trailing_blanks(without_leading_blanks(text))
}

fn without_leading_blanks(text: &[u8]) -> &[u8]
    ensures { result.now ≡ without_leading_blanks text.now }
{
    let mut left = text;
    while let Some((first, rest)) = left.split_first() {
        if !is_blank(*first) {
            return left;
        }
        left = rest;
    }
    left
}

fn without_trailing_blanks(text: &[u8]) -> &[u8]
    ensures { result.now ≡ without_trailing_blanks text.now }
{
    let mut left = text;
    while let Some((last, rest)) = left.split_last() {
        if !is_blank(*last) {
            return left;
        }
        left = rest;
    }
    left
}

fn is_missing(text: &[u8]) -> bool
    ensures { result ≡ is_missing text.now }
{
    text.is_empty()
        || same_text(text, b"?")
        || same_text(text, b"nan")
        || same_text(text, b"NaN")
        || same_text(text, b"NA")
}
