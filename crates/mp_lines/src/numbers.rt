//! Numbers, refs and lists of columns.

ghost use Rattle.std.specs.Prelude.{◌≡◌, ◌+◌, ◌^◌, ◌<◌, ◌≤◌, [], ◌∷◌, length, drop, position, is_some, unwrap_or, Some};
ghost use Rattle.std.specs.Prelude.{true, IfOk, IfSome};
ghost use Rattle.mp_bytes.specs.Digits.{number_of};
ghost use Rattle.mp_replies.specs.Limits.{max_digits};
ghost use Rattle.mp_replies.specs.PanCommand.{lengths};
ghost use Rattle.mp_replies.specs.Numbers.{
  column,
  columns,
  count as count_of,
  factor,
  few,
  is_point,
  kept,
  neighbours,
  number,
  positive,
  rank_count,
  ref,
  squared,
};

use mp_bytes::{Values, read_number};
use mp_nums::Memory;
use mp_replies::Ref;
use std::alloc::Global;

/// The most digits of a number, leading zeros counted.
const MAX_DIGITS: usize = 39;

/// The most windows or diagonals that are asked for, and the most neighbours.
const MAX_COUNT: u64 = 262_144;

/// The most motifs, and the most matches of one.
const MAX_MOTIFS: u64 = 1_024;

/// The shortest and the longest window.
const MIN_WINDOW: u64 = 3;

const MAX_WINDOW: u64 = 16_384;

/// The most window lengths that are compared.
const MAX_LENGTHS: u64 = 256;

/// The most nearest windows of a window.
const MAX_RANKS: u64 = 4;

/// The most window lengths of a regime's zone.
const MAX_FACTOR: u64 = 100;

/// The fewest samples of a slot that are kept, those of the shortest window.
const MIN_KEPT: u64 = 3;

/// The most samples of a slot that are kept.
const MAX_KEPT: u64 = 262_144;

/// The greatest column, counted from 0.
const MAX_COLUMN: u64 = 65_535;

/// The most columns.
const MAX_COLUMNS: usize = 8;

/// A number up to a greatest one.
fn read_at_most(field: &[u8], most: u64) -> Option<u64>
    ensures number { result ≡ number_of max_digits most field.now }
    ensures within { IfSome result (λ n. n ≤ most) }
{
    match read_number(field, MAX_DIGITS, u128::from(most)) {
        None => None,
        Some(n) => Some(n as u64),
    }
}

/// A number of 64 bits.
pub(crate) fn read_u64(field: &[u8]) -> Option<u64>
    ensures { result ≡ number field.now }
{
    read_at_most(field, u64::MAX)
}

/// A squared distance.
pub(crate) fn read_squared(field: &[u8]) -> Option<u128>
    ensures { result ≡ squared field.now }
{
    read_number(field, MAX_DIGITS, u128::MAX)
}

/// A number up to a greatest one of 32 bits.
fn read_small(field: &[u8], most: u64) -> Option<u32>
    requires { most < 2 ^ 32 }
    ensures { result ≡ number_of max_digits most field.now }
{
    match read_at_most(field, most) {
        None => None,
        Some(n) => Some(n as u32),
    }
}

/// How many windows or diagonals are asked for.
pub(crate) fn read_count(field: &[u8]) -> Option<u64>
    ensures { result ≡ count_of field.now }
{
    unless_zero(read_at_most(field, MAX_COUNT))
}

/// How many motifs, or matches of one.
pub(crate) fn read_few(field: &[u8]) -> Option<u64>
    ensures { result ≡ few field.now }
{
    unless_zero(read_at_most(field, MAX_MOTIFS))
}

/// How many nearest windows of a window.
pub(crate) fn read_rank_count(field: &[u8]) -> Option<u64>
    ensures { result ≡ rank_count field.now }
{
    unless_zero(read_at_most(field, MAX_RANKS))
}

/// A least and a greatest window length.
pub(crate) fn read_lengths(lo: &[u8], hi: &[u8]) -> Option<(u32, u32)>
    ensures { result ≡ lengths (lo.now ∷ hi.now ∷ []) }
{
    let lo = read_u64(lo)?;
    let hi = read_u64(hi)?;
    if MIN_WINDOW <= lo && lo <= hi && hi <= MAX_WINDOW && hi - lo < MAX_LENGTHS {
        Some((lo as u32, hi as u32))
    } else {
        None
    }
}

fn unless_zero(read: Option<u64>) -> Option<u64>
    ensures { result ≡ positive read }
{
    match read {
        Some(n) if n >= 1 => Some(n),
        _ => None,
    }
}

/// How many windows must match a motif beside itself.
pub(crate) fn read_neighbours(field: &[u8]) -> Option<u64>
    ensures { result ≡ neighbours field.now }
{
    read_at_most(field, MAX_COUNT)
}

/// How many window lengths.
pub(crate) fn read_factor(field: &[u8]) -> Option<u32>
    ensures { result ≡ factor field.now }
{
    read_small(field, MAX_FACTOR)
}

/// How many samples of a slot are kept.
pub(crate) fn read_kept(field: &[u8]) -> Option<u64>
    ensures { result ≡ kept field.now }
{
    match read_at_most(field, MAX_KEPT) {
        Some(n) if n >= MIN_KEPT => Some(n),
        _ => None,
    }
}

/// A slot, or a slot and a channel with a point between.
pub(crate) fn read_ref(field: &[u8]) -> Option<Ref>
    ensures { result ≡ ref field.now }
{
    match point_in(field) {
        None => {
            let slot = read_u64(field)?;
            Some(Ref { slot, channel: 0 })
        }
        Some(at) => {
            let slot = read_u64(&field[..at])?;
            let channel = read_u64(behind(field, at))?;
            Some(Ref { slot, channel })
        }
    }
}

fn point_in(field: &[u8]) -> Option<usize>
    ensures { result ≡ position is_point field.now }
{
    field.iter().position(|byte| *byte == b'.')
}

/// What stands behind the byte at a place.
fn behind(field: &[u8], at: usize) -> &[u8]
    requires { at < length field.now }
    ensures { result.now ≡ drop (at + 1) field.now }
{
    &field[at + 1..]
}

/// A column.
pub(crate) fn read_column(text: &[u8]) -> Option<u32>
    ensures { result ≡ column text.now }
{
    read_small(text, MAX_COLUMN)
}

/// A field that lists 1 to 8 columns.
#[derive(Clone, Copy, Debug, PartialEq, Eq)]
pub struct Columns<'a> {
    pub field: &'a [u8],
    ghost tested: { is_some (columns field.now) ≡ true },
}

impl<'a> Columns<'a> {
    /// `None` for a field that is no such list.
    pub(crate) fn of(field: &'a [u8]) -> Option<Columns<'a>>
        ensures some { is_some result ≡ is_some (columns field.now) }
        ensures field { IfSome result (λ list. list.field.now ≡ field.now) }
    {
        if are_columns(field) {
            Some(Columns { field })
        } else {
            None
        }
    }

    /// How many columns there are.
    pub fn count(self) -> u64
        ensures { result ≡ length (unwrap_or (columns self.entry.field.now) []) }
    {
        let mut count = 0;
        for _ in Values::of(self.field) {
            count += 1;
        }
        count
    }

    /// The columns.
    pub fn read(self, alloc: Global) -> Result<Vec<u32>, Memory>
        ensures { IfOk result (λ read. columns self.entry.field.now ≡ Some read.items) }
    {
        let mut read = Vec::new(alloc);
        for text in Values::of(self.field) {
            read.push(read_column(text).unwrap())?;
        }
        Ok(read)
    }
}

/// Whether a field is a list of 1 to 8 columns.
fn are_columns(field: &[u8]) -> bool
    ensures { result ≡ is_some (columns field.now) }
{
    let mut count = 0;
    for text in Values::of(field) {
        if count == MAX_COLUMNS {
            return false;
        }
        if read_column(text).is_none() {
            return false;
        }
        count += 1;
    }
    true
}
