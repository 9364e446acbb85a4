//! The fields of a line.

ghost use Rattle.std.specs.Prelude.{◌≡◌, ℕ, ◌<◌, ◌≤◌, List, length, take, drop, true, false, slice_index};
ghost use Rattle.std.specs.Iterator.{YieldsFirstRef, item_count};
ghost use Rattle.mp_bytes.specs.Bytes.{is_blank as is_blank_byte};
ghost use Rattle.mp_bytes.specs.Fields.{fields_in, without_cr as without_cr_of};

use crate::blanks::is_blank;

/// The fields of a text: what stands between its spaces and tabs.
#[derive(Clone, Copy, Debug)]
pub struct Fields<'a> {
    /// The text of the fields that are left.
    pub text: &'a [u8],
}

impl<'a> Iterator for Fields<'a> {
    type Item = &'a [u8];

    ghost next_gives = { YieldsFirstRef (λ fields. fields_in fields.text.now) };

    ghost remaining = { item_count (λ fields. fields_in fields.text.now) };

    fn next(&mut self) -> Option<&'a [u8]> {
        let text = without_blanks(self.text);
        let (field, rest) = text.split_at(field_len(text));
        self.text = rest;
        if field.is_empty() { None } else { Some(field) }
    }
}

/// The text from its first byte on that is no blank.
fn without_blanks(text: &[u8]) -> &[u8]
    ensures fields { fields_in result.now ≡ fields_in text.now }
    ensures first { 0 < length result.now → is_blank_byte (slice_index result.now 0) ≡ false }
{
    let mut rest = text;
    while !rest.is_empty() && is_blank(rest[0]) {
        rest = &rest[1..];
    }
    rest
}

/// How many bytes stand before the first blank.
fn field_len(text: &[u8]) -> usize
    ensures within { result ≤ length text.now }
    ensures before { (k : ℕ) → k < result → is_blank_byte (slice_index text.now k) ≡ false }
    ensures end { result < length text.now → is_blank_byte (slice_index text.now result) ≡ true }
{
    for (k, byte) in text.iter().enumerate() {
        if is_blank(*byte) {
            return k;
        }
    }
    text.len()
}

/// The line without one CR at its end.
pub fn without_cr(line: &[u8]) -> &[u8]
    ensures { result.now ≡ without_cr_of line.now }
{
    match line.last() {
        Some(b'\r') => &line[..line.len() - 1],
        _ => line,
    }
}
